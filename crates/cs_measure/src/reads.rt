//! READs of a script that is loaded once.

ghost use Rattle.std.specs.Prelude.{◌≡◌, true};

use crate::trouble::Trouble;
use cs_ddl::{ReadQuery, parse_query};
use cs_link::{Link, LinkAnswer, Step};
use cs_script::ServerState;
use cs_server::ServerLink;
use cs_steps::{ReadFault, read_args};
use cs_types::Stamp;
use std::alloc::Global;

/// Answers the query of each line of a text over one link, at most so many steps of each, and gives
/// of each in a line how many steps these were, or that it was refused.
pub fn answers(
    alloc: Global,
    state: &ServerState,
    moment: &str,
    queries: &str,
    page: &str,
) -> Result<String, Trouble> {
    let Ok(moment) = Stamp::read(moment.as_bytes()) else {
        return Err(Trouble::Moment);
    };
    let Ok(page) = page.parse::<u32>() else {
        return Err(Trouble::Words);
    };
    let mut link = ServerLink::new(alloc, state, moment);
    let mut told = String::new(alloc);
    for query in queries.lines() {
        let query = parse_query(alloc, query.as_bytes())?;
        if !told.is_empty() {
            told.push('\n')?;
        }
        match steps_of(alloc, state, &mut link, &query, page)? {
            Some(steps) => told.push_str(format!(in alloc; "{steps}")?.as_str())?,
            None => told.push_str("refused")?,
        }
    }
    Ok(told)
}

/// The number of steps of a READ, of which at most so many are asked for; None where it is refused.
fn steps_of<K: Link>(
    alloc: Global,
    state: &ServerState,
    link: &mut K,
    query: &ReadQuery,
    page: u32,
) -> Result<Option<u32>, Trouble> {
    let args = match read_args(alloc, state.catalog().streams(), query) {
        Ok((_, args)) => args,
        Err(ReadFault::Refused(_)) => return Ok(None),
        Err(ReadFault::Memory) => return Err(Trouble::Memory),
    };
    match link.open(&args) {
        Ok(()) => Ok(Some(steps_read(link, page)?)),
        Err(LinkAnswer::Refused(_)) => Ok(None),
        Err(answer) => Err(Trouble::from(answer)),
    }
}

fn steps_read<K: Link>(link: &mut K, page: u32) -> Result<u32, Trouble>
    requires { K.is_reading link.old ≡ true }
{
    'steps: for count in 0..page {
        if let Step::Closing(_) = link.next()? {
            return Ok(count + 1);
        }
    }
    Ok(page)
}
