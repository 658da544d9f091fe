//! Balances, and a tree that follows them.

ghost use Rattle.std.specs.Prelude.{◌≡◌, ◌<◌, length, slice_set, IfOk};

use crate::cases::{Change, balances_of, row_in};
use eve_accounts::{Balances, Cents, Row, SetRow};
use eve_testing::Text;
use eve_token::RowTree;
use std::alloc::{AllocError, Global};

/// A new tree. Where memory is refused once, the tree can be made then.
fn tree_over(alloc: Global, balances: &Balances) -> Result<RowTree, AllocError>
    requires some { 0 < length balances.now }
    ensures { IfOk result (λ tree. tree ≡ balances.now) }
{
    match RowTree::new(alloc, balances) {
        Err(AllocError) => RowTree::new(alloc, balances),
        made => made,
    }
}

/// The root that a new tree gives.
pub(crate) fn new_root(alloc: Global, balances: &Balances, said: &mut Text) -> [u8; 32]
    requires some { 0 < length balances.now }
{
    match tree_over(alloc, balances) {
        Ok(mut tree) => tree.root(),
        Err(AllocError) => {
            said.refused();
            [0; 32]
        }
    }
}

/// Writes a balance into whatever has rows.
fn write<S: SetRow>(rows: &mut S, row: Row, balance: Cents)
    requires there { row < length (S.rows rows.old) }
    ensures { S.rows rows.new ≡ slice_set (S.rows rows.old) row balance }
{
    rows.set(row, balance);
}

/// Balances, and the tree to which each write goes too.
#[derive(Drop)]
pub(crate) struct Followed {
    balances: Balances,
    tree: RowTree,
    ghost same: { tree ≡ balances },
    ghost some: { 0 < length balances },
}

impl Followed {
    /// A new tree over these balances, of which there must be some.
    pub(crate) fn new(alloc: Global, words: &str, said: &mut Text) -> Option<Followed> {
        let Some(balances) = balances_of(alloc, words, said) else {
            return None;
        };
        match tree_over(alloc, &balances) {
            Ok(tree) => Some(Followed { balances, tree }),
            Err(AllocError) => {
                said.refused();
                None
            }
        }
    }

    /// How many rows there are.
    pub(crate) fn rows(&self) -> usize
        ensures { 0 < result }
    {
        self.balances.len()
    }

    /// Changes the balance of a row, which must be there, in both.
    pub(crate) fn set(&mut self, change: Change, said: &mut Text) {
        match row_in(&self.balances, change.row) {
            Some(row) => {
                write(&mut self.balances, row, change.balance);
                write(&mut self.tree, row, change.balance);
            }
            None => said.needs(false),
        }
    }

    /// The root that the tree gives.
    pub(crate) fn root(&mut self) -> [u8; 32] {
        self.tree.root()
    }

    /// Whether that is the root that a new tree gives.
    pub(crate) fn is_as_new(&mut self, alloc: Global, said: &mut Text) -> bool {
        self.tree.root() == new_root(alloc, &self.balances, said)
    }
}
