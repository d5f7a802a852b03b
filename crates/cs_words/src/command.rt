use cs_ddl::ReadQuery;
use cs_types::{Memory, Stamp, Text};

/// What a command line asks for, with a field for each word behind the command's and for each
/// option.
#[derive(Debug, Drop)]
pub enum Command {
    /// replay SCRIPT JOURNAL OUTPUT STREAM START END [--order N] [--turns N] [--batch N] [--moment T]
    Replay {
        script: Text,
        journal: Text,
        output: Text,
        stream: Text,
        start: Stamp,
        end: Stamp,
        options: ReplayOptions,
    },
    /// check SCRIPT OUTPUT STREAM START END
    Check {
        script: Text,
        output: Text,
        stream: Text,
        start: Stamp,
        end: Stamp,
    },
    /// show SCRIPT MOMENT QUERY: the present moment, and the query that is taken at it.
    Show {
        script: Text,
        moment: Stamp,
        query: ReadQuery,
    },
    /// gen N [--text]: the number of commits, and whether the script itself is asked for.
    Gen {
        commits: u64,
        text: bool,
    },
}

/// How a replay goes. An option that is not given has its default here.
#[derive(Clone, Copy, Debug, PartialEq, Eq)]
pub struct ReplayOptions {
    /// `--order`: which READ is made of those that may be made equally well: the one at this place,
    /// modulo their number. Any number of 1 to 10 digits; by default 0.
    pub order: u64,
    /// `--turns`: after how many READs that caught up with the present moment it pauses. From 1 to
    /// 1,000,000; by default 100.
    pub turns: u32,
    /// `--batch`: how many data records and heartbeats one batch takes. From 1 to 8,192; by default
    /// 1,024.
    pub batch: u32,
    /// `--moment`: the present moment for the server. By default the window's end.
    pub moment: Stamp,
}

/// Why words are no command.
#[derive(Clone, Copy, Debug, PartialEq, Eq)]
pub enum WordsFault {
    /// The place, from 0, of the first word that no command has there, or the number of words
    /// where one is missing.
    At(usize),
    /// There was no memory to read them.
    Memory,
}

impl From<Memory> for WordsFault {
    ghost use Rattle.std.specs.Prelude.{◌≡◌};
    ghost use Rattle.cs_words.specs.declared.command.WordsFault.TheVariants.{Memory};

    ghost from_gives = { λ _ e. e ≡ Memory };

    fn from(_: Memory) -> WordsFault {
        WordsFault::Memory
    }
}
