ghost use Rattle.std.specs.Prelude.{◌≡◌, ◌+◌, ◌<◌, ◌≤◌, ◌^◌, slice_range, Err, IfOk, IfSome, length, map, take, vec_len};
ghost use Rattle.std.specs.Io.KnownBytes.{Consumes, IsAtEnd};
ghost use Rattle.er_cli.specs.Input.{lines_of};
ghost use Rattle.er_cli.specs.inside.Input.{Fills};

use std::alloc::{AllocError, Global};
use std::io::{self, Read};

/// How many bytes a script may have.
pub const MAX_SCRIPT_BYTES: usize = 65_536;

/// Why an input was not read.
#[derive(Clone, Copy)]
pub enum InputFault {
    TooLong,
    /// A read failed.
    Read,
    Memory,
}

fn read_after<R: Read>(reader: &mut R, buf: &mut [u8], filled: usize) -> io::Result<usize>
    requires { filled < length buf.old }
    ensures bound { IfOk result (λ count. filled + count ≤ length buf.new) }
    ensures kept { take filled buf.new ≡ take filled buf.old }
    ensures came { IfOk result (λ count. Consumes (R.remaining reader.old) (R.remaining reader.new)
        (slice_range buf.new filled (filled + count))) }
    ensures ended { IfOk result (λ count. count ≡ 0 → IsAtEnd (R.remaining reader.new)) }
{
    reader.read(&mut buf[filled..])
}

/// Reads until `buf` is full or the input ends, and says how many bytes came.
fn fill<R: Read>(reader: &mut R, buf: &mut [u8]) -> io::Result<usize>
    ensures { IfOk result (Fills (R.remaining reader.old) (R.remaining reader.new) buf.new) }
{
    let mut filled = 0;
    while filled < buf.len() {
        let count = read_after(reader, buf, filled)?;
        if count == 0 {
            break;
        }
        filled += count;
    }
    Ok(filled)
}

/// Room for `most` bytes and one more, which shows that an input is too long.
fn room(alloc: Global, most: usize) -> Result<Vec<u8>, AllocError>
    requires { most < 2 ^ 32 }
    ensures { IfOk result (λ room. vec_len room ≡ most + 1) }
{
    vec![in alloc; 0; most + 1]
}

/// Reads a whole input of at most `most` bytes. Its memory is taken before the first read, so that no read runs out of it.
pub fn read_whole<R: Read>(
    alloc: Global,
    reader: &mut R,
    most: usize,
) -> Result<Vec<u8>, InputFault>
    requires { most < 2 ^ 32 }
    ensures small { IfOk result (λ input. vec_len input ≤ most) }
    ensures whole { IfOk result (λ input. IfSome (R.remaining reader.old) (λ all. input.items
        ≡ all)) }
    ensures too_long { result ≡ Err InputFault.TooLong
        → IfSome (R.remaining reader.old) (λ all. most < length all) }
{
    let Ok(mut input) = room(alloc, most) else {
        return Err(InputFault::Memory);
    };
    let Ok(filled) = fill(reader, &mut input) else {
        return Err(InputFault::Read);
    };
    if filled > most {
        return Err(InputFault::TooLong);
    }
    input.truncate(filled);
    Ok(input)
}

/// Reads a whole script.
pub fn read_script<R: Read>(alloc: Global, reader: &mut R) -> Result<Vec<u8>, InputFault>
    ensures small { IfOk result (λ script. vec_len script ≤ MAX_SCRIPT_BYTES) }
    ensures whole { IfOk result (λ script. IfSome (R.remaining reader.old) (λ all. script.items
        ≡ all)) }
    ensures too_long { result ≡ Err InputFault.TooLong
        → IfSome (R.remaining reader.old) (λ all. MAX_SCRIPT_BYTES < length all) }
{
    read_whole(alloc, reader, MAX_SCRIPT_BYTES)
}

/// The lines of a script, without those that are empty.
pub fn lines_of(alloc: Global, script: &[u8]) -> Result<Vec<&[u8]>, AllocError>
    ensures { IfOk result (λ lines. map (λ line. line.now) lines.items
        ≡ lines_of script.entry.now) }
{
    script
        .split(|byte| *byte == b'\n')
        .filter(|line| !line.is_empty())
        .collect(alloc)
}
