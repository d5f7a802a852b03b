//! What the program says of itself.

use std::io;
use std::process::ExitCode;

const VERSION: &str = "spanstream 0.1.0\n";

const HELP: &str =
    "spanstream replays a scripted database, and writes and checks what a change stream of it tells.

usage:
  spanstream replay SCRIPT JOURNAL OUTPUT STREAM START END
    [--order N] [--turns N] [--batch N] [--moment T]
  spanstream check SCRIPT OUTPUT STREAM START END
  spanstream show SCRIPT MOMENT QUERY
  spanstream gen N [--text]
  spanstream COMMAND --help
  spanstream --help
  spanstream --version

replay reads the stream as a follower does: it writes a line for each change with
START <= stamp <= END to the output, those of each row in commit order, watermark lines, and last
that of END. It keeps what it has read in the journal: stopped by a kill, a full disk or a pause,
it goes on with the same words. check judges such an output. show prints what the server answers to
a query at a moment. gen makes a realistic script of N commits.
  SCRIPT   a file to read, at most 67,108,864 bytes: a JSON line for each statement,
           commit or reshape of partitions (docs/FORMATS.md has the form)
  JOURNAL  a file, made where it is absent; it belongs to the OUTPUT that it was begun with
  OUTPUT   a file; replay makes it where it is absent, and it must be empty where JOURNAL has no entry
  STREAM   the name of a change stream of the script
  START    a stamp such as 2024-05-01T00:00:00Z, with up to six digits of a second's fraction
  END      a stamp that is not below START
  MOMENT   a stamp: the present moment for the server
  QUERY    one word, a query as spanstream show --help has it

The last line on standard output has the status and its name:
   0 Ended           all is done: of replay and check, the output is complete; of show, each
                     line of the answer stands above
  10 Paused          replay: as many READs as it may make caught up with the present moment, which is
                     before END; the output is right so far, and a later --moment goes on
  11 Verdict V       check: the output is not complete, and V says what it is
  20 RetentionPassed T  START is before T, the earliest moment that the stream keeps at the present
                     moment: in replay --moment, in show MOMENT
  21 Refused KIND    the script has no such stream, or it was created after START, or a READ starts
                     above the present moment; in show, the query is refused, and KIND says why
  31 Breach KIND A B  replay: what the stream tells does not go together with the journal, which was
                     begun with another SCRIPT; the output says what the journal does
  40 JournalFault    replay: a call on the journal failed; the same words go on
  41 OutputFault     a call on the output failed; of replay, the same words go on
  42 SourceFault     a read of the script failed
  43 ConsoleFault    the write to standard output failed (no line)
  50 BadWords N      word N, counted from 0 behind the program's name, is missing, wrong or one too many
  51 BadScript N C   line N of the script, counted from 1, is the first bad one, and C says why;
                     0 TooLong: the script has more bytes than it may
  52 OtherJournal STREAM START END  replay: the journal was begun with these words; journal and
                     output stay as they are
  53 BadJournal N    replay: the journal is damaged from byte N on, counted from 0, or is no journal;
                     journal and output stay as they are
  54 Full N          replay: the journal would have N bytes, more than 268,435,456; the output is right
                     so far
  55 OutputNotEmpty N  replay: the journal has no entry and the output N bytes; it stays as it is
  56 BadOutput N     check: line N of the output is neither a change nor a watermark
  60 Memory          memory was wanting
  70                 a file cannot be opened; or, of replay, JOURNAL and OUTPUT are one file, or
                     another run holds one of them (no line)
";

const REPLAY: &str = "usage: spanstream replay SCRIPT JOURNAL OUTPUT STREAM START END
       [--order N] [--turns N] [--batch N] [--moment T]

Reads the script, follows the change stream from START to END, and writes to the output a line
for each change, those of each row in commit order, and watermark lines: up to the stamp of one,
all changes stand before it. The last one is that of END.
What it has read it keeps in the journal. Where a run was stopped, by a kill, a full disk or a pause,
the same words go on; the output is then made to say what the journal does, whatever stood there.
  SCRIPT   a file to read, a JSON line for each statement, commit or reshape; to go on it has to be
           the one that JOURNAL was begun with, which is not checked
  JOURNAL  a file, made where it is absent; one that was begun with another STREAM, START or END is
           refused with 52, and a file that is no journal with 53
  OUTPUT   a file, made where it is absent; it belongs to JOURNAL, and must be empty where that has no
           entry. One run at a time may have the two, and they may not be one file
  STREAM   the name of a change stream of the script
  START    a stamp, not before the stream's creation and not before T less its retention_period,
           nor after T
  END      a stamp that is not below START
Options, in any order, each at most once; to go on they may be others:
  --order N   which READ is made of those that may be made equally well: the one at place N of their
              tokens' order, modulo their number; 0 to 9,999,999,999, by default 0
  --turns N   stop with 10 Paused after N READs that caught up with T; 1 to 1,000,000, by default 100
  --batch N   how many records one batch takes; 1 to 8,192, by default 1,024
  --moment T  a stamp: the present moment for the server; by default END
It ends with 0, 10, 20, 21, 31, 40, 41, 42, 43, 50, 51, 52, 53, 54, 55, 60 or 70.

example: spanstream replay examples/one-insert.script /tmp/journal /tmp/output S 2024-05-01T00:00:01Z 2024-05-01T00:00:01Z
";

const CHECK: &str = "usage: spanstream check SCRIPT OUTPUT STREAM START END

Reads the script and an output, and says whether the output is what the change stream tells
from START to END. Both files must be there, and stay as they are.
   0 Ended              the output is complete
  11 Verdict Prefix T   it is right so far, up to the watermark T (- is none), and not complete
  11 Verdict Extra N    line N is the line of no change that is wanted
  11 Verdict OutOfOrder N      line N is not the next one of its row
  11 Verdict WatermarkEarly N  before the watermark of line N a change up to it is missing
  11 Verdict WatermarkBack N   the watermark of line N is not above the last one, or is above END
  56 BadOutput N        line N is neither a change nor a watermark, or has no end
It ends with 0, 11, 21, 41, 42, 43, 50, 51, 56, 60 or 70.

example: spanstream check examples/one-insert.script /tmp/output S 2024-05-01T00:00:01Z 2024-05-01T00:00:01Z
";

const SHOW: &str = "usage: spanstream show SCRIPT MOMENT QUERY

Reads the script, and prints what the server answers to the query when it is MOMENT: a JSON line
for each record (data, heartbeat or child partitions), a line that closes the answer, and then
0 Ended.
  SCRIPT   a file to read, a JSON line for each statement, commit or reshape
  MOMENT   a stamp such as 2024-05-01T00:00:20Z: the present moment for the server
  QUERY    one word (put it between double quotes):
           SELECT ChangeRecord FROM READ_stream(start_timestamp, end_timestamp, partition_token,
           heartbeat_milliseconds)
           with the arguments in this order, or each as name => value
             start_timestamp         a stamp between single quotes, not before the stream's creation
                                     and not before MOMENT less its retention_period
             end_timestamp           a stamp between single quotes, or NULL
             partition_token         a text such as 'S-00000', or NULL: the partitions are listed
             heartbeat_milliseconds  a number from 1000 to 300000
The answer closes with FINISHED, with CAUGHT_UP where MOMENT is before the end, or with CUT
behind 8,192 records.
It ends with 0, 20, 21, 42, 43, 50, 51, 60 or 70.

example: spanstream show examples/one-insert.script 2024-05-01T00:00:01Z \"SELECT ChangeRecord FROM READ_S('2024-05-01T00:00:01Z', '2024-05-01T00:00:20Z', 'S-00000', 10000)\"
";

const GEN: &str = "usage: spanstream gen N [--text]

Makes a script of N commits over the tables Singers and Albums, with a change stream G,
splits and merges of its partitions. N is an even number from 10 to 50,000.
  --text   print the script, and nothing else
Without --text it replays the script in memory, audits the outputs and prints a summary.
It ends with 0, 43, 50 or 60.

example: spanstream gen 5000 --text > /tmp/script
";

/// The answer to words that ask for help, where these do.
pub fn answer_of(words: &[String]) -> Option<&'static str> {
    match words {
        [word] => alone(word.as_str()),
        [command, word] => if word.as_str() == "--help" {
            of_command(command.as_str())
        } else {
            None
        },
        _ => None,
    }
}

/// The answer to a word that stands alone.
fn alone(word: &str) -> Option<&'static str> {
    if word == "--help" {
        return Some(HELP);
    }
    if word == "--version" {
        return Some(VERSION);
    }
    None
}

fn of_command(command: &str) -> Option<&'static str> {
    if command == "replay" {
        return Some(REPLAY);
    }
    if command == "check" {
        return Some(CHECK);
    }
    if command == "show" {
        return Some(SHOW);
    }
    if command == "gen" {
        return Some(GEN);
    }
    None
}

/// Prints a text: the status is 0, or 43 where it cannot be printed.
pub fn print(rt: &impl Print, text: &str) -> ExitCode {
    let done: io::Result<()> = print!(rt; "{text}");
    match done {
        Ok(()) => ExitCode::from(0),
        Err(_) => ExitCode::from(43),
    }
}
