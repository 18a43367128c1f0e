//! Tests of `er_cli`, for what no clause says and no script shows. They stand apart from `er_desk_tests`, so that those need not wait for
//! command lines.
#![tactic(auto)]

#[cfg(test)]
mod clients;
#[cfg(test)]
mod connections;
#[cfg(test)]
mod flushing;
#[cfg(test)]
mod hosts;
#[cfg(test)]
mod lines;
#[cfg(test)]
mod sockets;
