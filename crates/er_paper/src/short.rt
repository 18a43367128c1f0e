use std::marker::Model;

/// How many bytes a short text may have.
pub const ROOM: usize = 320;

/// A text of at most [`ROOM`] bytes, in an array: it takes no memory. Contracts see it as the list of its bytes.
#[derive(Drop)]
pub struct ShortText {
    bytes: [u8; ROOM],
    len: usize,
}

impl Model for ShortText {
    ghost use Rattle.std.specs.Prelude.{List, ℕ, take, ◌≤◌};
    ghost use Rattle.er_paper.specs.declared.short.TheConstants.{ROOM};

    ghost Value = { List ℕ };

    ghost view = { λ text. take text.len text.bytes };

    ghost invariant = { λ text. text.len ≤ ROOM };
}

impl ShortText {
    ghost use Rattle.std.specs.Prelude.{◌≡◌, ◌≤◌, ◌+◌, ◌++◌, [], length};
    ghost use Rattle.std.specs.Fmt.{decimal};
    ghost use Rattle.er_paper.specs.declared.short.TheConstants.{ROOM};

    /// The empty text.
    pub fn new() -> ShortText
        ensures value { result ≡ [] }
        ensures size { length result ≡ 0 }
    {
        ShortText {
            bytes: [0; ROOM],
            len: 0,
        }
    }

    pub fn as_slice(&self) -> &[u8]
        ensures { result.now ≡ self.now }
    {
        &self.bytes[..self.len]
    }

    /// Appends these bytes. The caller sees to the room for them.
    pub fn push(&mut self, part: &[u8])
        requires { length self.old + length part.now ≤ ROOM }
        ensures value { self.new ≡ self.old ++ part.now }
        ensures size { length self.new ≡ length self.old + length part.now }
    {
        let end = self.len + part.len();
        self.bytes[self.len..end].copy_from_slice(part);
        self.len = end;
    }

    /// Appends a number in decimal, in at most 20 digits.
    pub fn push_number(&mut self, number: u64)
        requires { length self.old + 20 ≤ ROOM }
        ensures value { self.new ≡ self.old ++ decimal number }
        ensures size { length self.new ≤ length self.old + 20 }
    {
        if number < 10 {
            return self.push(&[b'0' + number as u8]);
        }
        self.push_number(number / 10);
        self.push(&[b'0' + (number % 10) as u8])
    }
}
