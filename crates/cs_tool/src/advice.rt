// What to do about a refused READ.
ghost use Rattle.std.specs.Prelude.{◌<◌, length};

use cs_link::ReadRefusal;

/// What happened and what to do, in one line without its end.
pub(crate) fn refusal_advice(refusal: &ReadRefusal) -> &'static str
    ensures { 0 < length result.now }
{
    match refusal {
        ReadRefusal::UnknownFunction => {
            "the script has no change stream of the name STREAM, or of the name behind READ_ in QUERY: see its CREATE CHANGE STREAM lines"
        }
        ReadRefusal::ArgumentType(_) => {
            "an argument of QUERY is unknown, stands twice, or has a value of a wrong type: see spanstream show --help"
        }
        ReadRefusal::ArgumentMissing(_) => {
            "QUERY has to give start_timestamp and heartbeat_milliseconds: see spanstream show --help"
        }
        ReadRefusal::ReadOptions => "read_options of QUERY has to be NULL: leave it out",
        ReadRefusal::Heartbeat => {
            "heartbeat_milliseconds of QUERY has to be a number from 1000 to 300000"
        }
        ReadRefusal::EndBeforeStart => {
            "end_timestamp of QUERY lies before start_timestamp: take a later end, or NULL"
        }
        ReadRefusal::StartBeforeCreation => {
            "START lies before the creation of the stream: take a later START"
        }
        ReadRefusal::StartTooOld(_) => {
            "START lies further back than the stream keeps its changes: take a later START"
        }
        ReadRefusal::StartInFuture(_) => {
            "the READ starts behind the present moment (--moment of replay, MOMENT of show): take an earlier start, or a later moment"
        }
        ReadRefusal::UnknownToken => {
            "no partition of the stream has this partition_token: the answer to a QUERY with the token NULL lists them"
        }
        ReadRefusal::StartBeforePartition(_) => {
            "start_timestamp of QUERY lies before the partition begins: start where its child record says, or read its parents"
        }
        ReadRefusal::StartPastPartition(_) => {
            "start_timestamp of QUERY lies behind the end of the partition: read its children"
        }
        ReadRefusal::Syntax(_) => "QUERY is not understood: see spanstream show --help",
        ReadRefusal::Wire(_) => "the server answered with a status that tells nothing of the READ",
    }
}
