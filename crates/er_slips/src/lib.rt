//! One request over HTTP, one answer: reading a request, asking the desk, and sending the whole answer.
#![tactic(auto)]

pub mod laws;
mod request;
mod response;
mod serve;

pub use request::{MAX_BODY, MAX_FIELDS, MAX_HEAD, Routes};
pub use serve::{ServeEnd, serve_one};
