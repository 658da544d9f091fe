//! A cheap hash that nobody can foresee.

ghost use Rattle.std.specs.Prelude.{◌≡◌};
ghost use Rattle.eve_accounts.specs.Keyed.{keyed_by};

use std::hash::{BuildHasher, FoldHasher, Hasher, RandomState};
use std::marker::Model;

/// Makes hashers that begin with one secret word. Names and clients are short and looked up for each request, so the
/// hash is a cheap one; and they are chosen by strangers, so its beginning is drawn at random and never fixed.
#[derive(Clone, Copy)]
pub struct KeyedHash {
    first: FoldHasher,
}

impl Model for KeyedHash {
    ghost use Rattle.std.specs.declared.hash.FoldHasher.{FoldHasher};

    ghost Value = { FoldHasher };

    ghost view = { λ k. k.first };

    ghost inverse = { λ h. record { first = h } };
}

impl KeyedHash {
    /// It begins with a word that these random ones give.
    pub fn new(random: &RandomState) -> KeyedHash
        ensures begins { result ≡ keyed_by random.now }
    {
        let mut first = FoldHasher::default();
        first.write_u64(random.hash_one(0u64));
        KeyedHash { first }
    }
}

impl BuildHasher for KeyedHash {
    type Hasher = FoldHasher;

    ghost build_hasher = { λ k. k };

    fn build_hasher(&self) -> FoldHasher {
        self.first
    }
}
