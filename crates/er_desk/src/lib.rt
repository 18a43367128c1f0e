//! One desk over one event: it takes commands in turn, and each accepted command is one transaction of the event's file.
//! `specs/Headline.antt` says in a few lines what the public calls promise together.
#![tactic(auto)]

mod closing;
mod desk;
pub mod laws;
mod opening;
mod stored;

pub use closing::into_connection;
pub use desk::{Desk, Reply};
pub use opening::{
    OpenFault, Opened, adopt_file, adopt_opened, create_in_opened, open, open_files,
};
