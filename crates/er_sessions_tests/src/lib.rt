//! Tests of `er_sessions`, for what no clause says. They stand apart from `er_cli_tests`, so that both are proved at once.
#![tactic(auto)]

#[cfg(test)]
mod sessions;
