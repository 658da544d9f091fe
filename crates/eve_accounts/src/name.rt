//! A name in place.

ghost use Rattle.std.specs.Prelude.{◌≡◌, ◌↔◌, ◌≤◌, IfSome, IsSome, IsTrue, length, take};
ghost use Rattle.eve_accounts.specs.Names.{is_name, padded};

use crate::limits::MOST_NAME_BYTES;
use crate::names::is_name;
use std::marker::Model;

/// A name, 1 to 24 bytes of printed ASCII with no space, held in place: it takes no memory, and is copied as it stands.
///
/// docs/MODEL.md, "Names". Contracts see it as the list of its bytes.
#[derive(Clone, Copy)]
pub struct Name {
    // The name, and zeros after it.
    bytes: [u8; MOST_NAME_BYTES],
    len: u8,
}

impl Model for Name {
    ghost use Rattle.std.specs.Prelude.{ℕ, List};

    ghost Value = { List ℕ };

    ghost use Rattle.eve_accounts.specs.Name.{IsHeldName, held, name_of};

    ghost view = { name_of };

    ghost invariant = { IsHeldName };

    ghost inverse = { held };

    ghost inverse_ok = { λ n h. h.is };
}

impl Name {
    /// The name of these bytes; `None` where they are no name.
    pub fn new(bytes: &[u8]) -> Option<Name>
        ensures bytes { IfSome result (λ name. name ≡ bytes.now) }
        ensures exact { IsSome result ↔ IsTrue (is_name bytes.now) }
    {
        if is_name(bytes) {
            Some(Name::of(bytes))
        } else {
            None
        }
    }

    /// The name of these bytes, which are one (`is_name`).
    pub fn of(bytes: &[u8]) -> Name
        requires { IsTrue (is_name bytes.now) }
        ensures { result ≡ bytes.now }
    {
        Name {
            bytes: padded(bytes),
            len: bytes.len() as u8,
        }
    }

    /// Its bytes.
    pub fn as_slice(&self) -> &[u8]
        ensures bytes { result.now ≡ self.now }
        ensures name { IsTrue (is_name self.now) }
    {
        prefix(&self.bytes, self.len as usize)
    }
}

/// The bytes, and zeros after them.
fn padded(bytes: &[u8]) -> [u8; MOST_NAME_BYTES]
    requires { length bytes.now ≤ MOST_NAME_BYTES }
    ensures { result ≡ padded bytes.now }
{
    let mut all = [0; MOST_NAME_BYTES];
    all[..bytes.len()].copy_from_slice(bytes);
    all
}

/// The first of these bytes.
fn prefix(bytes: &[u8], len: usize) -> &[u8]
    requires { len ≤ length bytes.now }
    ensures { result.now ≡ take len bytes.now }
{
    &bytes[..len]
}
