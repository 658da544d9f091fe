//! The stripes of all rows, each behind a lock of its own.

ghost use Rattle.std.specs.Prelude.{◌≡◌, ◌*◌, IfOk, length};
ghost use Rattle.eve_grammar.specs.Bodies.{transfer as plain};
ghost use Rattle.eve_stamps.specs.Stripes.{HaveRightVersions};

use crossbeam_utils::CachePadded;
use eve_accounts::{Balances, Names};
use eve_grammar::TransferData;
use eve_stamps::{STRIPES, Stripe, opening_stripe};
use std::alloc::{AllocError, Global};
use std::marker::Model;
use std::sync::Mutex;

/// The rows of all customers in sixteen stripes, both rows of customer c in stripe c mod 16, each stripe behind a lock
/// of its own; and the customers' names. Contracts see the names; of what a lock holds they know that it is a stripe.
///
/// docs/DEPLOYMENT.md, "Executions".
#[derive(Drop)]
pub struct Floor<'n> {
    pub(crate) names: &'n Names<'n>,
    pub(crate) stripes: Vec<CachePadded<Mutex<Stripe>>>,
}

impl<'n> Model for Floor<'n> {
    ghost use Rattle.std.specs.Prelude.{◌≡◌, ℕ, List, vec_len};
    ghost use Rattle.eve_stamps.specs.declared.limits.TheConstants.{STRIPES};

    ghost Value = { List (List ℕ) };

    ghost view = { λ f. f.names.now.items };

    ghost invariant = { λ f. vec_len f.stripes ≡ STRIPES };
}

impl<'n> Floor<'n> {
    /// A floor with these opening balances, each row at version 0. There are two rows for each name.
    pub fn new(
        alloc: Global,
        names: &'n Names<'n>,
        balances: &Balances,
    ) -> Result<Floor<'n>, AllocError>
        requires rows { length balances.now ≡ 2 * length names.now.items }
        ensures { IfOk result (λ floor. floor ≡ names.now.items) }
    {
        let customers = names.len() as u32;
        let mut stripes = Vec::with_capacity(alloc, STRIPES as usize)?;
        for stripe in 0..STRIPES {
            let opening = opening_stripe(alloc, balances, stripe, customers)?;
            stripes.push(CachePadded::new(Mutex::new(opening)))?;
        }
        Ok(Floor { names, stripes })
    }

    /// Makes what was journaled up to the tick part of the committed base, in all stripes. The rows stay as they are
    /// now.
    pub fn settle(&mut self, tick: u64)
        ensures { self.new ≡ self.old }
    {
        for stripe in self.stripes.iter_mut() {
            stripe.get_mut().settle(tick);
        }
    }

    /// Returns all stripes to their committed bases. It takes no memory and can't be refused.
    pub fn go_back(&mut self)
        ensures { self.new ≡ self.old }
    {
        for stripe in self.stripes.iter_mut() {
            stripe.get_mut().go_back();
        }
    }

    /// Applies a state: each row that the state has gets its version and its value, committed and now, and nothing
    /// is journaled any more, in all stripes. It takes no memory and can't be refused.
    ///
    /// docs/DEPLOYMENT.md, "Executions". No version of the state is above `MOST_VERSIONS`.
    pub fn install(&mut self, transfer: &TransferData)
        requires versions { HaveRightVersions (plain transfer.now).rows }
        ensures { self.new ≡ self.old }
    {
        for stripe in self.stripes.iter_mut() {
            stripe.get_mut().install(transfer);
        }
    }
}
