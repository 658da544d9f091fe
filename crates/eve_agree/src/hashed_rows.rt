//! Balances of which tokens are hashed on the way from batch to batch.

ghost use Rattle.std.specs.Prelude.{◌≡◌, ◌≤◌, ◌<◌, ◌-◌, List, IsTrue, OnOk, length};
ghost use Rattle.std.specs.List.{flat_map};
ghost use Rattle.eve_smallbank.specs.declared.request.Reply.{Reply as ReplyValue};
ghost use Rattle.eve_smallbank.specs.Spelling.{reply_text};
ghost use Rattle.eve_token.specs.Token.{token_of};
ghost use Rattle.eve_agree.specs.inner.HashedRows.{balances_in, has_tree, can_hash};
ghost use Rattle.eve_agree.specs.inner.NumbersJudged.{IsAfter};

use eve_accounts::Balances;
use eve_chains::Settled;
use eve_token::{RowTree, token_of_root_and_spelled, token_of_spelled};
use std::alloc::{AllocError, Global};

/// The balances that a replica has after a number, alone or with a Merkle tree over them, of which the tokens of every
/// version but the first are made.
///
/// docs/TRACE.md, "Merkle token". A tree costs memory at once, and time with each row that is set: so there is none
/// before a token has to be hashed.
#[derive(Drop)]
pub(crate) enum HashedRows {
    /// The balances.
    Plain(Balances),
    /// The balances with the tree over them.
    Tree(RowTree),
}

impl HashedRows {
    /// The balances.
    pub(crate) fn balances(&self) -> &Balances
        ensures { result.now ≡ balances_in self.now }
    {
        match self {
            HashedRows::Plain(balances) => balances,
            HashedRows::Tree(tree) => tree.balances(),
        }
    }

    /// Goes from the balances after the number before to those after number n.
    pub(crate) fn advance(&mut self, settled: &Settled<'_>, n: u32)
        requires one { 1 ≤ n }
        requires there { n ≤ length settled.now.numbers }
        requires before { IsAfter settled.now (n - 1) (balances_in self.old) }
        ensures after { IsAfter settled.now n (balances_in self.new) }
        ensures tree { has_tree self.new ≡ has_tree self.old }
    {
        match self {
            HashedRows::Plain(balances) => settled.advance(n, balances),
            HashedRows::Tree(tree) => settled.advance(n, tree),
        }
    }

    /// Makes the tree, where the version's tokens need one and there is none. It hashes nothing yet.
    pub(crate) fn grow(&mut self, alloc: Global, version: u16) -> Result<(), AllocError>
        requires some { 0 < length (balances_in self.old) }
        ensures same { balances_in self.new ≡ balances_in self.old }
        ensures can { OnOk result (IsTrue (can_hash version self.new)) }
    {
        if version == 1 {
            return Ok(());
        }
        let tree = match self {
            HashedRows::Plain(balances) => RowTree::new(alloc, balances)?,
            HashedRows::Tree(_) => return Ok(()),
        };
        *self = HashedRows::Tree(tree);
        Ok(())
    }

    /// The version's token of these balances, of a batch's number and of replies that stand spelled: nine bytes each,
    /// in request order. It takes no memory.
    pub(crate) fn token(&mut self, version: u16, seq: u32, spelled: &[u8]) -> [u8; 32]
        requires can { IsTrue (can_hash version self.old) }
        requires some { (replies : List ReplyValue) × (0 < length replies)
            × (spelled.now ≡ flat_map reply_text replies) }
        ensures token { (replies : List ReplyValue) → spelled.now ≡ flat_map reply_text replies
            → result ≡ token_of version seq (balances_in self.old) replies }
        ensures same { self.new ≡ self.old }
    {
        if version == 1 {
            return token_of_spelled(seq, self.balances(), spelled);
        }
        match self {
            HashedRows::Plain(_) => unreachable!(),
            HashedRows::Tree(tree) => token_of_root_and_spelled(seq, &tree.root(), spelled),
        }
    }
}
