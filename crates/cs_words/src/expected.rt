ghost use Rattle.std.specs.Prelude.{◌<◌, length};

use crate::options::{ReplayOption, option_at};

/// What stands at a place of this command line, from 0, in words for its user. It takes no memory.
pub fn expected_at(words: &[String], place: usize) -> &'static str
    ensures { 0 < length result.now }
{
    let first = match words.get(0) {
        Some(word) => word.as_str(),
        None => "",
    };
    if first == "replay" {
        if place > LAST_OF_WINDOW {
            return expected_of_options(words, place);
        }
        return expected_in_replay(place);
    }
    if first == "check" {
        return expected_in_check(place);
    }
    if first == "show" {
        return expected_in_show(place);
    }
    if first == "gen" {
        return expected_in_gen(place);
    }
    "a command: replay, check, show or gen"
}

fn expected_in_replay(place: usize) -> &'static str
    ensures { 0 < length result.now }
{
    match place {
        1 => "SCRIPT, the path of a file to read",
        2 => "JOURNAL, a path",
        3 => "OUTPUT, the path of an empty or absent file",
        4 => STREAM,
        5 => START,
        _ => END,
    }
}

/// What stands at a place behind the window: the value of the option whose word stands before it,
/// or an option.
fn expected_of_options(words: &[String], place: usize) -> &'static str
    requires { 6 < place }
    ensures { 0 < length result.now }
{
    if (place - LAST_OF_WINDOW) % 2 == 1 {
        return "--order N, --turns N, --batch N or --moment T, each at most once, or no further word";
    }
    match option_at(words, place - 1) {
        Some(ReplayOption::Order) => "N, a number of at most 10 digits",
        Some(ReplayOption::Turns) => "N, a number from 1 to 1,000,000",
        Some(ReplayOption::Batch) => "N, a number from 1 to 8,192",
        Some(ReplayOption::Moment) => "T, a stamp such as 2024-05-01T00:00:00Z",
        None => "the value of an option",
    }
}

fn expected_in_check(place: usize) -> &'static str
    ensures { 0 < length result.now }
{
    match place {
        1 => "SCRIPT, the path of a file to read",
        2 => "OUTPUT, the path of the file to check",
        3 => STREAM,
        4 => START,
        5 => END,
        _ => "no further word",
    }
}

fn expected_in_show(place: usize) -> &'static str
    ensures { 0 < length result.now }
{
    match place {
        1 => "SCRIPT, the path of a file to read",
        2 => "MOMENT, a stamp such as 2024-05-01T00:00:00Z",
        3 =>
            "QUERY, one word such as \"SELECT ChangeRecord FROM READ_S('2024-05-01T00:00:01Z', NULL, NULL, 10000)\"",
        _ => "no further word",
    }
}

fn expected_in_gen(place: usize) -> &'static str
    ensures { 0 < length result.now }
{
    match place {
        1 => "N, an even number from 10 to 50,000",
        2 => "--text, or no further word",
        _ => "no further word",
    }
}

/// The place of the last word of the window in replay.
const LAST_OF_WINDOW: usize = 6;

const STREAM: &str = "STREAM, the name of a change stream of the script";

const START: &str = "START, a stamp such as 2024-05-01T00:00:00Z";

const END: &str = "END, a stamp that is not below START";
