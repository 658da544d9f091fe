//! Balances of which tokens are made.

ghost use Rattle.std.specs.Prelude.{◌≡◌, ◌<◌, ◌⊎◌, length, slice_set, IfOk};
ghost use Rattle.eve_token.specs.Token.{token_of, rows_root};

use crate::hash_flat;
use crate::merkle::token_of;
use crate::tree::RowTree;
use eve_accounts::{Balances, Cents, Row, SetRow};
use eve_smallbank::Reply;
use std::alloc::{AllocError, Global};
use std::marker::Model;

/// What a version's tokens are made of.
#[derive(Drop)]
enum Kept {
    /// Version 1: the balances as they are.
    Flat(Balances),
    /// Version 2: a tree over them.
    Tree(RowTree),
}

/// The balances of all rows, of which tokens are made: as they are in version 1 of the trace, by a Merkle tree that is
/// kept over them in version 2.
///
/// docs/TRACE.md, "Token" and "Merkle token". A write hashes nothing. In version 2 a token hashes once each node above
/// a row that was written since the last one, so rows of which no token is asked for are never hashed. Contracts see
/// the version and the balances in cents (`TokenRows` of the specs).
#[derive(Drop)]
pub struct TokenRows {
    kept: Kept,
}

impl Model for TokenRows {
    ghost use Rattle.eve_token.specs.TokenRows as model;

    ghost Value = { model.TokenRows };

    ghost use Rattle.eve_token.specs.HeldBalances.{token_rows_of};

    ghost view = { λ t. token_rows_of t.kept };
}

impl TokenRows {
    /// Rows with these balances, in memory of their own, for a version of the trace. It hashes nothing yet.
    pub fn new(alloc: Global, version: u16, balances: &Balances) -> Result<TokenRows, AllocError>
        requires version { (version ≡ 1) ⊎ (version ≡ 2) }
        requires some { version ≡ 2 → 0 < length balances.now }
        ensures { IfOk result (λ rows. rows ≡ record { version = version; balances = balances.now }) }
    {
        let kept = if version == 1 {
            Kept::Flat(balances.copy(alloc)?)
        } else {
            Kept::Tree(RowTree::new(alloc, balances)?)
        };
        Ok(TokenRows { kept })
    }

    /// The version.
    pub fn version(&self) -> u16
        ensures { result ≡ self.now.version }
    {
        match &self.kept {
            Kept::Flat(_) => 1,
            Kept::Tree(_) => 2,
        }
    }

    /// The balances, in row order.
    pub fn balances(&self) -> &Balances
        ensures { result.now ≡ self.now.balances }
    {
        match &self.kept {
            Kept::Flat(balances) => balances,
            Kept::Tree(tree) => tree.balances(),
        }
    }

    /// Changes the balance of a row.
    pub fn set(&mut self, row: Row, balance: Cents)
        requires there { row < length self.old.balances }
        ensures { self.new ≡ record self.old { balances = slice_set self.old.balances row balance } }
    {
        match &mut self.kept {
            Kept::Flat(balances) => balances.set(row, balance),
            Kept::Tree(tree) => tree.set(row, balance),
        }
    }

    /// The token of an attempt that left these balances: of its batch's number and its replies, in request order. It
    /// takes no memory.
    pub fn token(&mut self, seq: u32, replies: &[Reply]) -> [u8; 32]
        requires replies { self.old.version ≡ 2 → 0 < length replies.now }
        ensures token { result ≡ token_of self.old.version seq self.old.balances replies.now }
        ensures same { self.new ≡ self.old }
    {
        match &mut self.kept {
            Kept::Flat(balances) => hash_flat(seq, balances, replies),
            Kept::Tree(tree) => token_of(seq, &tree.root(), replies),
        }
    }

    /// The root over all rows, in version 2. It takes no memory.
    pub fn root(&mut self) -> [u8; 32]
        requires version { self.old.version ≡ 2 }
        ensures root { result ≡ rows_root self.old.balances }
        ensures same { self.new ≡ self.old }
    {
        match &mut self.kept {
            Kept::Flat(_) => unreachable!(),
            Kept::Tree(tree) => tree.root(),
        }
    }
}

impl SetRow for TokenRows {
    ghost rows = { λ t. t.balances };

    fn set(&mut self, row: Row, balance: Cents) {
        TokenRows::set(self, row, balance);
    }
}
