//! Worked answers of the types, the places and the devices, tried on their public calls with ample memory. It has tests alone.
#![tactic(auto)]

#[cfg(test)]
mod devices;
#[cfg(test)]
mod disks;
#[cfg(test)]
mod journals;
#[cfg(test)]
mod making;
#[cfg(test)]
mod parts;
#[cfg(test)]
mod redoing;
#[cfg(test)]
mod rows;
#[cfg(test)]
mod types;
