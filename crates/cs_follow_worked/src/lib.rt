//! Worked answers of a follower: what it makes of servers that lie, of pages, splits and merges, and of runs that were stopped, tried on its public calls with ample memory. It has tests alone.
#![tactic(auto)]

#[cfg(test)]
mod answers;
#[cfg(test)]
mod books;
#[cfg(test)]
mod following;
#[cfg(test)]
mod lies;
#[cfg(test)]
mod merges;
#[cfg(test)]
mod reading;
#[cfg(test)]
mod restarts;
#[cfg(test)]
mod scripts;
#[cfg(test)]
mod servers;
#[cfg(test)]
mod stops;
#[cfg(test)]
mod telling;
