//! Tests of a desk and of the crates below it, for what no clause of theirs says and no script shows. They stand here, since a crate with
//! tests of its own is proved twice.
#![tactic(auto)]

#[cfg(test)]
mod brackets;
#[cfg(test)]
mod desks;
#[cfg(test)]
mod events;
#[cfg(test)]
mod faults;
#[cfg(test)]
mod migrations;
#[cfg(test)]
mod pairings;
#[cfg(test)]
mod rules;
#[cfg(test)]
mod shares;
#[cfg(test)]
mod slips;
#[cfg(test)]
mod standings;
#[cfg(test)]
mod stores;
#[cfg(test)]
mod tables;
#[cfg(test)]
mod totals;
