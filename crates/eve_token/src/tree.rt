//! A Merkle tree that is kept beside the balances.

ghost use Rattle.std.specs.Prelude.{◌≡◌, ℕ, ℤ, ◌≤◌, ◌<◌, ◌+◌, ◌*◌, ◌^◌, List, length, slice_set, IfOk, IfSome};
ghost use Rattle.eve_smallbank.specs.Spelling.{money_text};
ghost use Rattle.eve_token.specs.Merkle.{leaf_hash, leaf_hashes, merkle_root};
ghost use Rattle.eve_token.specs.Places.{HaveHashes, nodes_of};
ghost use Rattle.eve_token.specs.Token.{rows_root};

use crate::merkle::{hash_leaf, hash_node, left_part};
use eve_accounts::{Balances, Cents, Row, SetRow};
use std::alloc::{AllocError, Global};
use std::marker::Model;

/// The balances of all rows, with the Merkle tree over them.
///
/// docs/TRACE.md, "Merkle token". A write hashes nothing, and the root then hashes once each node above a row that was
/// written. Contracts see it as the list of the balances in cents.
#[derive(Drop)]
pub struct RowTree {
    balances: Balances,
    // Of n rows 2n - 1: the hash of row i's leaf at place 2i, and at place 2m - 1 that of the node whose right part
    // begins at leaf m. None: stale.
    nodes: Vec<Option<[u8; 32]>>,
}

impl Model for RowTree {
    ghost use Rattle.std.specs.Prelude.{ℤ, List};
    ghost use Rattle.eve_token.specs.Places.{IsRowTree};

    ghost Value = { List ℤ };

    ghost view = { λ t. t.balances };

    ghost invariant = { λ t. IsRowTree t.balances t.nodes.items };
}

impl RowTree {
    /// The tree over these balances, which hashes nothing yet.
    pub fn new(alloc: Global, balances: &Balances) -> Result<RowTree, AllocError>
        requires some { 0 < length balances.now }
        ensures { IfOk result (λ tree. tree ≡ balances.now) }
    {
        let rows = balances.len();
        Ok(RowTree {
            balances: balances.copy(alloc)?,
            nodes: vec![in alloc; None; 2 * rows - 1]?,
        })
    }

    /// The balances.
    pub fn balances(&self) -> &Balances
        ensures { result.now ≡ self.now }
    {
        &self.balances
    }

    /// Changes the balance of a row. It hashes nothing, and the same balance again does nothing.
    pub fn set(&mut self, row: Row, balance: Cents)
        requires there { row < length self.old }
        ensures { self.new ≡ slice_set self.old row balance }
    {
        if self.balances.get(row) != balance {
            self.balances.set(row, balance);
            mark_stale(
                row.number() as usize,
                self.balances.len(),
                self.nodes.as_mut_slice(),
            );
        }
    }

    /// The root over all rows. It takes no memory, and hashes what is stale, once.
    pub fn root(&mut self) -> [u8; 32]
        ensures root { result ≡ rows_root self.old }
        ensures same { self.new ≡ self.old }
    {
        refresh(0, self.balances.as_slice(), self.nodes.as_mut_slice())
    }
}

impl SetRow for RowTree {
    ghost rows = { λ t. t };

    fn set(&mut self, row: Row, balance: Cents) {
        RowTree::set(self, row, balance);
    }
}

/// Marks a leaf and the nodes above it stale.
fn mark_stale(leaf: usize, leaves: usize, nodes: &mut [Option<[u8; 32]>])
    requires there { leaf < leaves }
    requires whole { length nodes.old + 1 ≡ 2 * leaves }
    ensures { (hashes : List (List ℕ)) (hash : List ℕ) → length hashes ≡ leaves → HaveHashes nodes.old (nodes_of hashes)
        → HaveHashes nodes.new (nodes_of (slice_set hashes leaf hash)) }
{
    if leaves == 1 {
        nodes[0] = None;
        return;
    }
    let part = left_part(leaves);
    let top = 2 * part - 1;
    nodes[top] = None;
    if leaf < part {
        mark_stale(leaf, part, &mut nodes[..top]);
    } else {
        mark_stale(leaf - part, leaves - part, &mut nodes[top + 1..]);
    }
}

/// The root over the rows, of which the first has this number. It hashes each stale node once.
fn refresh(number: usize, balances: &[Cents], nodes: &mut [Option<[u8; 32]>]) -> [u8; 32]
    requires some { 0 < length balances.now }
    requires numbers { number + length balances.now ≤ 2 ^ 63 }
    requires whole { length nodes.old + 1 ≡ 2 * length balances.now }
    requires kept { HaveHashes nodes.old (nodes_of (leaf_hashes money_text number balances.now)) }
    ensures root { result ≡ merkle_root (leaf_hashes money_text number balances.now) }
    ensures kept { HaveHashes nodes.new (nodes_of (leaf_hashes money_text number balances.now)) }
{
    if balances.len() == 1 {
        return refresh_leaf(number, balances[0], &mut nodes[0]);
    }
    let part = left_part(balances.len());
    let top = 2 * part - 1;
    if let Some(hash) = nodes[top] {
        return hash;
    }
    let (left, others) = balances.split_at(part);
    let left_root = refresh(number, left, &mut nodes[..top]);
    let right_root = refresh(number + part, others, &mut nodes[top + 1..]);
    let hash = hash_node(&left_root, &right_root);
    nodes[top] = Some(hash);
    hash
}

/// The hash of a row's leaf.
fn refresh_leaf(number: usize, balance: Cents, node: &mut Option<[u8; 32]>) -> [u8; 32]
    requires { IfSome node.old (λ hash. hash ≡ leaf_hash number (money_text balance)) }
    ensures value { result ≡ leaf_hash number (money_text balance) }
    ensures kept { node.new ≡ Some result }
{
    if let Some(hash) = *node {
        return hash;
    }
    let hash = hash_leaf(number, &balance);
    *node = Some(hash);
    hash
}
