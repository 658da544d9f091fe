//! Customers by name.

ghost use Rattle.std.specs.Prelude.{◌≡◌, ◌≤◌, ◌<◌, ◌↔◌, ◌++◌, ◌∷◌, [], ℕ, length, slice_get, Contains, IsTrue, IfSome};
ghost use Rattle.std.specs.Prelude.{IfNone, IfOk, OnOk, OnErr, Err, Some, false};
ghost use Rattle.std.specs.List.{list_all};
ghost use Rattle.eve_accounts.specs.Names.{NameList, IsNameList, CanTake, is_printable, is_name, customer_named};

use crate::keyed_hash::KeyedHash;
use crate::limits::{FIRST_NAME_BYTE, LAST_NAME_BYTE, MOST_NAME_BYTES, MOST_NAMES};
use crate::name_key::NameKey;
use indexmap::IndexSet;
use std::alloc::Global;
use std::hash::RandomState;
use std::marker::Model;

/// Whether the bytes are a name: 1 to 24 bytes of printed ASCII with no space, 0x21 to 0x7E.
///
/// docs/MODEL.md, "Names".
pub fn is_name(bytes: &[u8]) -> bool
    ensures { result ≡ is_name bytes.now }
{
    !bytes.is_empty() && bytes.len() <= MOST_NAME_BYTES && are_printable(bytes)
}

/// Whether each byte is printed ASCII, and no space.
fn are_printable(bytes: &[u8]) -> bool
    ensures { result ≡ list_all is_printable bytes.now }
{
    bytes
        .iter()
        .all(|&byte| (FIRST_NAME_BYTE..=LAST_NAME_BYTE).contains(&byte))
}

/// Why a name was not added.
#[derive(Clone, Copy, Debug, PartialEq, Eq)]
pub enum NameFault {
    /// The name is there already.
    SameName,
    /// It is no name.
    BadName,
    /// The list is at its limit.
    Full,
    /// Memory ran out.
    Memory,
}

/// Distinct names, each with a number: its place, counted from 0, in the order in which they were added.
///
/// docs/MODEL.md, "Names". The names' bytes are borrowed. Contracts see the list with its limit.
#[derive(Drop)]
pub struct Names<'a> {
    set: IndexSet<NameKey<'a>, KeyedHash>,
    limit: u32,
}

impl<'a> Model for Names<'a> {
    ghost use Rattle.eve_accounts.specs.Names.{NameList, IsNameList};

    ghost Value = { NameList };

    ghost use Rattle.eve_accounts.specs.View.{name_list_of};

    ghost view = { name_list_of };

    ghost invariant = { λ n. IsNameList (name_list_of n) };
}

impl<'a> Names<'a> {
    /// No names yet, and room for `limit` of them. It takes no memory.
    pub fn new(alloc: Global, random: RandomState, limit: u32) -> Names<'a>
        requires { limit ≤ MOST_NAMES }
        ensures { result ≡ record { items = []; limit = limit } }
    {
        Names {
            set: IndexSet::with_hasher(alloc, KeyedHash::new(&random)),
            limit,
        }
    }

    /// Adds a name, and returns its number.
    ///
    /// Refused, in the order of the tests: `BadName`, what is no name; `SameName`, a name that is there already;
    /// `Full`, a name past the limit; `Memory`. A refused name changes nothing.
    pub fn add(&mut self, name: &'a [u8]) -> Result<u32, NameFault>
        ensures added { OnOk result (self.new ≡ record self.old { items = self.old.items ++ name.now ∷ [] }) }
        ensures number { IfOk result (λ n. n ≡ length self.old.items) }
        ensures small { IfOk result (λ n. n < MOST_NAMES) }
        ensures taken { OnOk result (CanTake self.old name.now) }

        // Each fault comes exactly where it is due, but for the memory, which may run out only where no other fault is
        // due.
        ensures bad_name { (result ≡ Err NameFault.BadName) ↔ (is_name name.now ≡ false) }
        ensures same_name { (result ≡ Err NameFault.SameName)
            ↔ (IsTrue (is_name name.now) × Contains self.old.items name.now) }
        ensures full { (result ≡ Err NameFault.Full)
            ↔ (IsTrue (is_name name.now) × (¬ Contains self.old.items name.now)
            × (length self.old.items ≡ self.old.limit)) }
        ensures memory { result ≡ Err NameFault.Memory → CanTake self.old name.now }
        ensures refused { OnErr result (self.new ≡ self.old) }
    {
        if !is_name(name) {
            return Err(NameFault::BadName);
        }
        let number = self.set.len();
        if number == self.limit as usize {
            if self.set.contains(&NameKey { bytes: name }) {
                return Err(NameFault::SameName);
            }
            return Err(NameFault::Full);
        }
        let Ok(is_new) = self.set.insert(NameKey { bytes: name }) else {
            return Err(NameFault::Memory);
        };
        if !is_new {
            return Err(NameFault::SameName);
        }
        Ok(number as u32)
    }

    /// The number of the name, or `None` where it is not there.
    pub fn number(&self, name: &[u8]) -> Option<u32>
        ensures number { result ≡ customer_named self.now.items name.now }
        ensures place { (n : ℕ) → (result ≡ Some n) ↔ (slice_get self.now.items n ≡ Some name.now) }
        ensures absent { IfNone result (¬ Contains self.now.items name.now) }
        ensures within { IfSome result (λ n. n < length self.now.items) }
        ensures small { IfSome result (λ n. n < MOST_NAMES) }
    {
        self.set
            .get_index_of(&NameKey { bytes: name })
            .map(|place| place as u32)
    }

    /// How many names there are.
    pub fn len(&self) -> usize
        ensures len { result ≡ length self.now.items }
        ensures names { IsNameList self.now }
    {
        self.set.len()
    }

    /// Whether there are no names.
    pub fn is_empty(&self) -> bool
        ensures { IsTrue result ↔ (length self.now.items ≡ 0) }
    {
        self.set.is_empty()
    }
}
