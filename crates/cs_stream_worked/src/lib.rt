//! Worked answers of records, links and queries: copies, groups, what a record tells, what a READ brings and why a query is refused, tried on their public calls with ample memory. It has tests alone.
#![tactic(auto)]

#[cfg(test)]
mod copies;
#[cfg(test)]
mod groups;
#[cfg(test)]
mod links;
#[cfg(test)]
mod making;
#[cfg(test)]
mod reads;
#[cfg(test)]
mod telling;
