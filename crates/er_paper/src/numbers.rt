ghost use Rattle.std.specs.Prelude.{◌≡◌, true, false, MatchOption};
ghost use Rattle.std.specs.List.{list_all};
ghost use Rattle.std.specs.Char.{is_ascii_digit};
ghost use Rattle.er_paper.specs.Reading.{number_of, number_within};

/// Whether each byte is a digit. A sign isn't one.
fn are_digits(bytes: &[u8]) -> bool
    ensures { result ≡ list_all is_ascii_digit bytes.now }
{
    bytes.iter().all(|byte| byte.is_ascii_digit())
}

/// The bytes as a text, if each is a digit.
pub fn digits(bytes: &[u8]) -> Option<&str>
    ensures { MatchOption result (list_all is_ascii_digit bytes.now ≡ false)
        (λ text. (list_all is_ascii_digit bytes.now ≡ true) × (text.now ≡ bytes.now)) }
{
    if are_digits(bytes) {
        str::from_utf8(bytes).ok()
    } else {
        None
    }
}

/// Parses 1 to 6 digits as a number.
fn number_of(field: &[u8]) -> Option<u32>
    ensures { result ≡ number_of field.now }
{
    if field.len() > 6 {
        return None;
    }
    digits(field)?.parse().ok()
}

pub fn number_within(low: usize, high: usize, field: &[u8]) -> Option<usize>
    ensures { result ≡ number_within low high field.now }
{
    let number = number_of(field)? as usize;
    if low <= number && number <= high {
        Some(number)
    } else {
        None
    }
}
