ghost use Rattle.std.specs.Prelude.{◌≡◌, IfOk, Some, map, string_bytes};
ghost use Rattle.er_cli.specs.Complaints.{Complains, place_of, what_is_wrong};
ghost use Rattle.er_cli.specs.inside.Complaints.{advice, complaint_with};
ghost use Rattle.er_words.specs.Usage.{fault_of};

use crate::help::subcommand_text;
use er_words::UsageFault;
use std::alloc::{AllocError, Global};

/// Where to look if the first word isn't a subcommand.
pub const TRY_HELP: &str = "\
usage: event_reporter SUBCOMMAND FILE WORDS
Try: event_reporter --help
";

/// Words that aren't text come here as none.
pub const NO_TEXT: &str = "\
event_reporter: the words are no UTF-8 text
Try: event_reporter --help
";

fn what_is_wrong(fault: UsageFault) -> &'static str
    ensures { result.now ≡ what_is_wrong fault }
{
    match fault {
        UsageFault::UnknownSubcommand => "is no subcommand\n",
        UsageFault::LeadingDash { place: _ } => "begins with `-`, which no word may\n",
        UsageFault::TooFew { place: _ } => "a word is missing at the end\n",
        UsageFault::TooMany { place: _ } => "is a word too many\n",
        UsageFault::BadNumber {
            place: _,
            most: 255,
        } => "is no whole number from 0 to 255\n",
        UsageFault::BadNumber { place: _, most: _ } => "is no whole number from 0 to 65535\n",
        UsageFault::BadSeed { place: _ } => "is not 64 hexadecimal digits\n",
        UsageFault::BadCount { place: _ } => "is no whole number from 1 to 1000000\n",
        UsageFault::BadKind { place: _ } => "is no kind of list: players or results\n",
    }
}

fn place_of(fault: UsageFault) -> usize
    ensures { result ≡ place_of fault }
{
    match fault {
        UsageFault::UnknownSubcommand => 0,
        UsageFault::LeadingDash { place }
        | UsageFault::TooFew { place }
        | UsageFault::TooMany { place }
        | UsageFault::BadNumber { place, most: _ }
        | UsageFault::BadSeed { place }
        | UsageFault::BadCount { place }
        | UsageFault::BadKind { place } => place,
    }
}

/// How the subcommand of this name is called, or where to look.
fn advice(name: &str) -> &'static str
    ensures { result.now ≡ advice name.now }
{
    match subcommand_text(name) {
        Some(text) => text,
        None => TRY_HELP,
    }
}

/// Names the word at fault, if there is one, and says what is wrong and how to go on.
fn complaint_with(
    alloc: Global,
    words: &[String],
    fault: UsageFault,
    advice: &str,
) -> Result<String, AllocError>
    ensures { IfOk result (λ text. string_bytes text
        ≡ complaint_with (map string_bytes words.now) fault advice.now) }
{
    let mut text = String::from_str(alloc, "event_reporter: ")?;
    if let Some(word) = words.get(place_of(fault)) {
        text.push_str("`")?;
        text.push_str(word.as_str())?;
        text.push_str("` ")?;
    }
    text.push_str(what_is_wrong(fault))?;
    text.push_str(advice)?;
    Ok(text)
}

/// What a person is told of words that have this fault.
pub fn complaint(alloc: Global, words: &[String], fault: UsageFault) -> Result<String, AllocError>
    ensures { fault_of (map string_bytes words.now) ≡ Some fault
        → IfOk result (λ text. Complains (map string_bytes words.now) (string_bytes text)) }
{
    let [name, ..] = words else {
        return String::from_str(alloc, NO_TEXT);
    };
    complaint_with(alloc, words, fault, advice(name.as_str()))
}
