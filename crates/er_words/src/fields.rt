ghost use Rattle.std.specs.Prelude.{◌≡◌, ◌∷◌, IfOk, codes, map};
ghost use Rattle.er_words.specs.Fields.{fields_of, script_words};
ghost use Rattle.er_words.specs.Usage.{ReadsWords};

use crate::line::{Line, LineFault, read_fields};
use crate::usage::UsageFault;
use std::alloc::{AllocError, Global};

/// The fields of a script's line, with a TAB between two.
fn fields_of(alloc: Global, line: &str) -> Result<Vec<&str>, AllocError>
    ensures { IfOk result (λ fields. map (λ field. field.now) fields.items
        ≡ fields_of line.entry.now) }
{
    line.split('\t').collect(alloc)
}

/// The words of a command line, with `script` put in as FILE.
fn words_of<'a>(
    alloc: Global,
    name: &'a str,
    values: &[&'a str],
) -> Result<Vec<&'a str>, AllocError>
    ensures { IfOk result (λ words. map (λ word. word.now) words.items
        ≡ name.entry.now ∷ codes "script" ∷ map (λ value. value.now) values.entry.now) }
{
    let mut words = Vec::new(alloc);
    words.push(name)?;
    words.push("script")?;
    for value in values {
        words.push(*value)?;
    }
    Ok(words)
}

/// Reads the command line that a line of a script stands for. One that isn't text has no words.
pub fn read_line(alloc: Global, line: &[u8]) -> Result<Line, LineFault>
    ensures { ReadsWords (script_words line.now) result }
{
    let Ok(line) = str::from_utf8(line) else {
        return Err(LineFault::Usage(UsageFault::UnknownSubcommand));
    };
    let fields = fields_of(alloc, line)?;
    let [name, values @ ..] = fields.as_slice() else {
        return Err(LineFault::Usage(UsageFault::UnknownSubcommand));
    };
    let words = words_of(alloc, name, values)?;
    read_fields(alloc, &words)
}
