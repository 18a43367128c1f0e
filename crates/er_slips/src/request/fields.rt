ghost use Rattle.std.specs.Prelude.{◌≡◌, ◌≤◌, map, length, All, IfOk};
ghost use Rattle.std.specs.Char.{to_ascii_lowercase};
ghost use Rattle.httparse.specs.Spans.{header_bytes, IsHeaderWithin};
ghost use Rattle.er_slips.specs.Request.{is_named, length_of, body_length};

use crate::request::wanted::Fault;
use er_paper::digits;
use httparse::spans::HeaderSpan;

/// How many bytes a body may have.
pub const MAX_BODY: usize = 4096;

/// Whether the field of these spans has this name, in whatever case.
fn is_named(bytes: &[u8], header: &HeaderSpan, name: &[u8]) -> bool
    requires within { IsHeaderWithin (length bytes.now) header.now }
    requires small { map to_ascii_lowercase name.now ≡ name.now }
    ensures { result ≡ is_named name.now (header_bytes bytes.now header.now) }
{
    header.name.of(bytes).eq_ignore_ascii_case(name)
}

/// Parses a field's value as a length.
fn length_of(value: &[u8]) -> Result<usize, Fault>
    ensures value { result ≡ length_of value.now }
    ensures short { IfOk result (λ length. length ≤ MAX_BODY) }
{
    if value.is_empty() {
        return Err(Fault::BadRequest);
    }
    let text = digits(value).ok_or(Fault::BadRequest)?;
    match text.parse::<u64>() {
        Ok(length) if length <= MAX_BODY as u64 => Ok(length as usize),
        _ => Err(Fault::TooLarge),
    }
}

/// Reads the length of the body from the fields.
pub fn body_length(bytes: &[u8], headers: &[HeaderSpan]) -> Result<usize, Fault>
    requires { All (IsHeaderWithin (length bytes.now)) headers.now }
    ensures value { result ≡ body_length (map (header_bytes bytes.now) headers.now) }
    ensures short { IfOk result (λ length. length ≤ MAX_BODY) }
{
    let mut found: Option<&[u8]> = None;
    for header in headers {
        if is_named(bytes, header, b"transfer-encoding") {
            return Err(Fault::BadRequest);
        }
        if is_named(bytes, header, b"content-length") {
            if found.is_some() {
                return Err(Fault::BadRequest);
            }
            found = Some(header.value.of(bytes));
        }
    }
    match found {
        Some(value) => length_of(value),
        None => Err(Fault::BadRequest),
    }
}
