//! What the desk of an event is asked, and what it answers. Command lines and requests over HTTP both ask by `ask`.
#![tactic(auto)]

mod asking;
mod question;

pub use asking::{ask, reply_told};
pub use question::{Answer, Question, View};
