//! Command lines over one real file.

use std::fs;
use std::test::Fail;

const FILE: &str = "lines.event";

/// The words of a line, whose second one stands for the file.
fn words(rt: &HostRuntime, line: &str) -> Option<Vec<String>> {
    let mut words = Vec::new(rt.alloc());
    for word in line.split(' ') {
        let word = if word == "FILE" { FILE } else { word };
        words.push(String::from_str(rt.alloc(), word).ok()?).ok()?;
    }
    Some(words)
}

/// Whether a command line ends well, and prints this and no error.
fn is_answered(rt: &HostRuntime, line: &str, answer: &str) -> Option<bool> {
    let (mut out, mut err) = (Vec::new(rt.alloc()), Vec::new(rt.alloc()));
    let words = words(rt, line)?;
    let status = er_cli::run(rt, words.as_slice(), &mut out, &mut err);
    Some(status == 0 && out.as_slice() == answer.as_bytes() && err.is_empty())
}

/// Whether each of the lines is answered so, up to the first that isn't.
fn are_answered(rt: &HostRuntime) -> Option<bool> {
    for (line, answer) in [
        ("init FILE Friday 3 0", "ok 0\n"),
        ("enrol FILE Ana", "ok 1\n"),
        ("enrol FILE Bo", "ok 2\n"),
        ("export FILE players", "no,name,dropped\n1,Ana,0\n2,Bo,0\n"),
        ("enrol FILE Cy", "ok 3\n"),
        ("start FILE", "ok 4\n"),
    ] {
        if !is_answered(rt, line, answer)? {
            return Some(false);
        }
    }
    Some(true)
}

/// A reading between two commands asks nothing else of the file.
#[test]
fn each_line_is_one_command(rt: HostRuntime) -> Result<(), Fail> {
    let answered = are_answered(&rt);
    for name in [FILE, "lines.event-wal"] {
        let _ = fs::remove_file(&rt, name);
    }
    assert_eq!(rt; answered, Some(true));
    Ok(())
}
