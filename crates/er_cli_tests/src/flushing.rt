//! Writers that hold bytes back, and those that can't pass them on.

use er_testing::wires::{Break, Sink};
use std::io::BufWriter;
use std::test::Fail;

/// Whether a script ends well, and its answers have gone out of a writer that holds them back.
fn script_flushes(rt: &HostRuntime, mut script: &[u8], answers: &[u8]) -> Option<bool> {
    let mut out = BufWriter::new(rt.alloc(), Vec::new(rt.alloc())).ok()?;
    let status = er_cli::run_script(rt, &mut script, &mut out);
    Some(status == 0 && out.get_ref().as_slice() == answers)
}

/// The answers have gone out when a script ends, even if the writer holds them back.
#[test]
fn a_script_flushes(rt: HostRuntime) -> Result<(), Fail> {
    let flushes = script_flushes(&rt, b"players\nenrol\n", b"refused 27 NoEvent\nusage\n");
    assert_eq!(rt; flushes, Some(true));
    Ok(())
}

/// Whether words end well, and the text that they ask for has gone out of a writer that holds it back, and nothing to the other stream.
fn text_flushes(rt: &HostRuntime, words: &[String], text: &[u8]) -> Option<bool> {
    let mut out = BufWriter::new(rt.alloc(), Vec::new(rt.alloc())).ok()?;
    let mut err = Vec::new(rt.alloc());
    let status = er_cli::run(rt, words, &mut out, &mut err);
    Some(status == 0 && out.get_ref().as_slice() == text && err.is_empty())
}

/// What `--version` prints, by a writer that holds nothing back.
fn version_text(rt: &HostRuntime) -> Option<Vec<u8>> {
    let version = String::from_str(rt.alloc(), "--version").ok()?;
    let mut out = Vec::new(rt.alloc());
    let mut err = Vec::new(rt.alloc());
    let status = er_cli::run(rt, &[version], &mut out, &mut err);
    if status == 0 && err.is_empty() {
        Some(out)
    } else {
        None
    }
}

fn version_flushes(rt: &HostRuntime) -> Option<bool> {
    let version = String::from_str(rt.alloc(), "--version").ok()?;
    let text = version_text(rt)?;
    text_flushes(rt, &[version], text.as_slice())
}

/// So has a text that words ask for.
#[test]
fn a_text_is_flushed(rt: HostRuntime) -> Result<(), Fail> {
    assert_eq!(rt; version_flushes(&rt), Some(true));
    Ok(())
}

/// Whether the refusal of an event that isn't there has gone out of a writer that holds it back, and nothing to the other stream.
fn refusal_flushes(rt: &HostRuntime) -> Option<bool> {
    let subcommand = String::from_str(rt.alloc(), "players").ok()?;
    let file = String::from_str(rt.alloc(), "no/such/event").ok()?;
    let mut out = Vec::new(rt.alloc());
    let mut err = BufWriter::new(rt.alloc(), Vec::new(rt.alloc())).ok()?;
    let status = er_cli::run(rt, &[subcommand, file], &mut out, &mut err);
    let refused = b"refused 27 NoEvent\n".as_slice();
    Some(status == 1 && err.get_ref().as_slice() == refused && out.is_empty())
}

/// So has the answer of a command line.
#[test]
fn an_answer_is_flushed(rt: HostRuntime) -> Result<(), Fail> {
    assert_eq!(rt; refusal_flushes(&rt), Some(true));
    Ok(())
}

/// Takes `room` bytes, and then neither more of them nor a flush.
fn flushing_in_vain(rt: &HostRuntime, room: usize) -> Sink {
    Sink {
        taken: Vec::new(rt.alloc()),
        room,
        then: Break::FailsToFlush,
    }
}

/// How a script ends over a writer that takes its answers and fails to pass them on: with its status, and what was taken.
fn script_in_vain(rt: &HostRuntime, mut script: &[u8]) -> (u8, Vec<u8>) {
    let mut out = flushing_in_vain(rt, 64);
    let status = er_cli::run_script(rt, &mut script, &mut out);
    (status, out.taken)
}

/// A flush that fails at the end of a script is a fault of the device, though its answers were taken.
#[test]
fn a_script_that_is_not_flushed_fails(rt: HostRuntime) -> Result<(), Fail> {
    let (status, taken) = script_in_vain(&rt, b"players\n");
    assert_eq!(rt; status, 3);
    assert_eq!(rt; taken.as_slice(), b"refused 27 NoEvent\n".as_slice());
    Ok(())
}

/// How `--version` ends over a writer that holds its text back, if the stream behind it takes only `room` bytes: with its status, what
/// that stream has taken, and what the errors have.
fn version_in_vain(rt: &HostRuntime, room: usize) -> Option<(u8, Vec<u8>, Vec<u8>)> {
    let version = String::from_str(rt.alloc(), "--version").ok()?;
    let mut out = BufWriter::new(rt.alloc(), flushing_in_vain(rt, room)).ok()?;
    let mut err = Vec::new(rt.alloc());
    let status = er_cli::run(rt, &[version], &mut out, &mut err);
    let mut taken = Vec::new(rt.alloc());
    taken
        .extend_from_slice(out.get_ref().taken.as_slice())
        .ok()?;
    Some((status, taken, err))
}

/// So is one after an answer: of a text that a writer has held back a beginning has gone out, or all of it.
#[test]
fn an_answer_that_is_not_flushed_fails(rt: HostRuntime) -> Result<(), Fail> {
    let part = version_in_vain(&rt, 5);
    let whole = version_in_vain(&rt, 64);
    let text = version_text(&rt);
    assert!(rt;
        matches!(&part, Some((3, taken, err)) if taken.as_slice() == b"event".as_slice() && err.is_empty())
    );
    assert!(rt;
        matches!((&whole, &text), (Some((3, taken, err)), Some(text)) if taken.as_slice() == text.as_slice() && err.is_empty())
    );
    Ok(())
}
