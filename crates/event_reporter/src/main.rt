//! The scorekeeper's program: it does what its words ask, and with no words runs the script on standard input.
#![tactic(auto)]

use std::io::IsTerminal;
use std::process::ExitCode;
use std::{env, io};

/// The words after the program's name.
fn words(rt: &HostRuntime) -> io::Result<Vec<String>> {
    Ok(env::args(rt)?.skip(1).collect(rt.alloc())?)
}

fn main(rt: HostRuntime) -> ExitCode {
    let (mut input, mut out, mut err) = (rt.stdin(), rt.stdout(), rt.stderr());
    let status = match words(&rt) {
        Ok(words) if words.is_empty() => {
            if input.is_terminal() {
                er_cli::print_awaiting(&mut err);
            }
            er_cli::run_script(&rt, &mut input, &mut out)
        }
        Ok(words) => er_cli::run(&rt, &words, &mut out, &mut err),
        Err(error) if error.kind() == io::ErrorKind::OutOfMemory => er_cli::refuse_memory(&mut err),
        Err(_not_text) => er_cli::run(&rt, &[], &mut out, &mut err),
    };
    ExitCode::from(status)
}
