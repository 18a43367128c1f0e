ghost use Rattle.std.specs.Prelude.{◌≡◌, ◌↔◌, ◌<◌, ◌-◌, ◌==◌, ◌||◌, IsTrue, IsOk, IfOk, IfErr, length, slice_index_or};
ghost use Rattle.std.specs.List.{list_all};
ghost use Rattle.er_event.specs.Name.{is_plain_byte, is_lawful_name};

use std::marker::Model;
use std::str;
use thiserror::Error;

/// How many bytes a name may have.
pub const MAX_NAME_BYTES: usize = 60;

/// Why bytes aren't a name.
#[derive(Clone, Copy, Debug, PartialEq, Eq, Error)]
pub enum NameFault {
    /// The bytes aren't a lawful name.
    #[error("the bytes are no lawful name")]
    Bad,
    /// There was no memory to keep the name. A name takes none today, so no call returns this.
    #[error("out of memory")]
    Memory,
}

/// The name of an event or a player: 1 to 60 bytes of UTF-8 with no control character and no space at either end. It takes no memory.
#[derive(Clone, Copy)]
pub struct Name {
    /// The bytes of the name, and zeros after them.
    bytes: [u8; MAX_NAME_BYTES],
    len: usize,
}

impl Model for Name {
    ghost use Rattle.std.specs.Prelude.{List, ℕ, ◌≡◌, take, length, IsTrue};
    ghost use Rattle.std.proofs.Common.{sym};
    ghost use Rattle.er_event.specs.Name.{is_lawful_name, name_with_zeros};

    ghost Value = { List ℕ };

    ghost view = { λ n. take n.len n.bytes };

    ghost invariant = { λ n. (n.bytes ≡ name_with_zeros (take n.len n.bytes))
        × (length (take n.len n.bytes) ≡ n.len) × IsTrue (is_lawful_name (take n.len n.bytes)) };

    ghost inverse = { λ name. record { bytes = name_with_zeros name; len = length name } };

    ghost inverse_ok = { λ n h i. record { bytes = sym h.0 i; len = h.1 i } };
}

impl Name {
    /// Reads these bytes as a name.
    pub fn try_from_bytes(bytes: &[u8]) -> Result<Name, NameFault>
        ensures value { IfOk result (λ name. name ≡ bytes.now) }
        ensures lawful { IsOk result ↔ IsTrue (is_lawful_name bytes.now) }
        ensures bad { IfErr result (λ fault. fault ≡ NameFault.Bad) }
    {
        if !is_lawful(bytes) {
            return Err(NameFault::Bad);
        }
        let mut padded = [0; MAX_NAME_BYTES];
        padded[..bytes.len()].copy_from_slice(bytes);
        Ok(Name {
            bytes: padded,
            len: bytes.len(),
        })
    }

    pub fn as_bytes(&self) -> &[u8]
        ensures value { result.now ≡ self.now }
        ensures lawful { IsTrue (is_lawful_name self.now) }
    {
        &self.bytes[..self.len]
    }

    pub fn as_str(&self) -> &str
        ensures value { result.now ≡ self.now }
        ensures lawful { IsTrue (is_lawful_name self.now) }
    {
        match str::from_utf8(self.as_bytes()) {
            Ok(text) => text,
            Err(_) => unreachable!(),
        }
    }
}

/// Whether no byte is a control character's. In UTF-8 such a character is one byte.
fn is_plain(bytes: &[u8]) -> bool
    ensures { result ≡ list_all is_plain_byte bytes.now }
{
    bytes.iter().all(|byte| *byte >= b' ' && *byte != 0x7f)
}

/// Whether a space stands first or last.
fn is_spaced(bytes: &[u8]) -> bool
    requires { 0 < length bytes.now }
    ensures { result ≡ (slice_index_or bytes.now 0 0 == 32 || slice_index_or bytes.now
        (length bytes.now - 1) 0 == 32) }
{
    bytes[0] == b' ' || bytes[bytes.len() - 1] == b' '
}

/// Whether the bytes are a lawful name.
fn is_lawful(bytes: &[u8]) -> bool
    ensures { IsTrue result ↔ IsTrue (is_lawful_name bytes.now) }
{
    if bytes.is_empty() || bytes.len() > MAX_NAME_BYTES || is_spaced(bytes) || !is_plain(bytes) {
        return false;
    }
    str::from_utf8(bytes).is_ok()
}
