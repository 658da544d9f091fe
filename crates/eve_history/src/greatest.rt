//! The greatest number of each client so far.

ghost use Rattle.std.specs.Prelude.{◌≡◌, ◌==◌, ℕ, None, Some, OnOk, IfOk, if◌then◌else◌};
ghost use Rattle.eve_history.specs.inner.GreatestNumbers.{greatest_of};

use eve_accounts::KeyedHash;
use indexmap::IndexMap;
use std::alloc::{AllocError, AllocFailed, Global};
use std::hash::RandomState;

/// The clients below this number have a place in the table, and the map is for at most as many others.
pub const MOST_CLIENTS: usize = 4096;

/// The greatest number of each client so far.
///
/// Clients that are numbered from 0 stand in a table, which needs no hash. All others, which strangers may choose, go
/// to a map whose hash nobody can foresee.
#[derive(Drop)]
pub struct Greatest {
    /// Of the first clients, by client.
    first: Vec<Option<u64>>,
    /// Of the others.
    others: IndexMap<u32, u64, KeyedHash>,
}

impl Greatest {
    /// No client came.
    pub fn new(alloc: Global, random: RandomState) -> Result<Greatest, AllocError>
        ensures { IfOk result (λ greatest. (client : ℕ) → greatest_of greatest client ≡ None) }
    {
        Ok(Greatest {
            first: vec![in alloc; None; MOST_CLIENTS]?,
            others: IndexMap::with_hasher(alloc, KeyedHash::new(&random)),
        })
    }

    /// Keeps a number as its client's greatest, and returns the one that was kept before.
    pub fn keep(&mut self, client: u32, number: u64) -> Result<Option<u64>, AllocFailed<(u32, u64)>>
        ensures before { IfOk result (λ before. before ≡ greatest_of self.old client) }
        ensures kept { OnOk result ((other : ℕ) → greatest_of self.new other
            ≡ (if other == client then Some number else greatest_of self.old other)) }
    {
        let place = client as usize;
        if place >= self.first.len() {
            return self.others.insert(client, number);
        }
        let before = self.first[place];
        self.first[place] = Some(number);
        Ok(before)
    }

    /// Whether more clients came to the map than it is for.
    pub fn are_many(&self) -> bool {
        self.others.len() > MOST_CLIENTS
    }
}
