//! The playoff: who meets whom in its stages, and who is its champion.
#![tactic(auto)]

mod champions;
mod stages;

pub use champions::champion;
pub use stages::{first_stage, next_stage};
