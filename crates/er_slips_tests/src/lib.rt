//! Tests of requests, and of stops at each call of the disk, after which a desk answers requests with a 503. They stand apart from
//! `er_desk_tests`, so that both are proved at once.
#![tactic(auto)]

#[cfg(test)]
mod requests;
#[cfg(test)]
mod stops;
