//! States that a replica lends and gets by a transfer, and its tree.

ghost use Rattle.std.specs.Prelude.{◌≡◌, IfOk, length};
ghost use Rattle.eve_stamps.specs.Stripes.{HaveRightVersions};

use crate::replica::world::stopped;
use eve_accounts::{Cents, Row};
use eve_grammar::{MOST_VERSIONS, Restore, TransferData};
use eve_replica::{Replica, TransferFault};
use eve_smallbank::Versioned;
use eve_token::RowTree;
use std::alloc::{AllocError, Global};
use std::io;

/// So many cents; none where no balance is so great.
pub fn cents(value: i64) -> Cents {
    match Cents::new(value) {
        Some(cents) => cents,
        None => Cents::ZERO,
    }
}

/// A state of ann alone, with nothing in her saving row, and her checking row as this one is.
fn state_of(
    alloc: Global,
    seq: u32,
    view: u32,
    checking: Restore,
) -> Result<TransferData, AllocError>
    ensures seq { IfOk result (λ state. state.seq ≡ seq) }
    ensures rows { IfOk result (λ state. length state.rows.items ≡ 2) }
    ensures versions { IfOk result (λ state. HaveRightVersions state.rows.items) }
{
    let saving = Versioned {
        version: 0,
        value: Cents::ZERO,
    };
    let checking = Versioned {
        version: checking.version.min(MOST_VERSIONS),
        value: checking.value,
    };
    Ok(TransferData {
        seq,
        view,
        rows: Vec::from_slice(alloc, &[saving, checking])?,
    })
}

/// The replica, which has one customer, has a state transferred with her checking row as this one is.
pub fn apply_transfer(
    alloc: Global,
    replica: &mut Replica,
    seq: u32,
    view: u32,
    checking: Restore,
) -> io::Result<Result<(), TransferFault>> {
    if replica.balances().len() != 2 {
        return Err(stopped());
    }
    let state = state_of(alloc, seq, view, checking)?;
    let answer = replica.transfer(&state);
    drop(state);
    Ok(answer)
}

/// Whether the replica's state is of ann alone, with nothing in her saving row, and her checking row as this one is.
pub fn has_state(alloc: Global, replica: &Replica, checking: Restore) -> io::Result<bool> {
    let state = replica.state(alloc)?;
    let has = state.len() == 2
        && is_so(&state[0], 0, Cents::ZERO)
        && is_so(&state[1], checking.version, checking.value);
    drop(state);
    Ok(has)
}

fn is_so(row: &Versioned, version: u64, value: Cents) -> bool {
    row.version == version && row.value == value
}

/// Whether this amount is in ann's checking row after the open attempts.
pub fn has_cents(replica: &Replica, value: i64) -> bool {
    let balances = replica.balances();
    balances.len() == 2 && balances.get(Row::checking(0)) == cents(value)
}

/// Whether the replica's root is that of a new tree over its balances.
pub fn has_root(alloc: Global, replica: &mut Replica) -> io::Result<bool> {
    if replica.version() != 2 || replica.balances().is_empty() {
        return Err(stopped());
    }
    let mut tree = RowTree::new(alloc, replica.balances())?;
    let root = tree.root();
    drop(tree);
    Ok(replica.root() == root)
}
