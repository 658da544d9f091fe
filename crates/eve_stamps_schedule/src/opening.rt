//! What a schedule begins with.

ghost use Rattle.std.specs.Prelude.{◌≡◌, ◌*◌, ◌≤◌, IfOk, length, map, replicate, [], None};
ghost use Rattle.std.specs.List.{range_with_len};
ghost use Rattle.eve_stamps.specs.declared.limits.TheConstants.{STRIPES};
ghost use Rattle.eve_stamps.specs.OpeningRows.{rows_of_stripe};

use crate::stage::Stage;
use eve_accounts::{Balances, MOST_NAMES};
use eve_stamps::{AccessRecord, STRIPES, Stripe, opening_stripe};
use std::alloc::{AllocError, Global};

/// The stripes of the given number of customers, with their opening balances.
pub fn opening_stripes(
    alloc: Global,
    balances: &Balances,
    customers: u32,
) -> Result<Vec<Stripe>, AllocError>
    requires few { customers ≤ MOST_NAMES }
    requires rows { length balances.now ≡ 2 * customers }
    ensures { IfOk result (λ stripes. stripes.items
        ≡ map (λ i. record { base = rows_of_stripe balances.now i customers; journal = []; greatest = None })
        (range_with_len 0 STRIPES)) }
{
    let mut stripes = Vec::with_capacity(alloc, STRIPES as usize)?;
    for stripe in 0..STRIPES {
        stripes.push(opening_stripe(alloc, balances, stripe, customers)?)?;
    }
    Ok(stripes)
}

/// For each worker no records.
pub fn no_records(alloc: Global, workers: u8) -> Result<Vec<Vec<AccessRecord>>, AllocError>
    ensures { IfOk result (λ noted. map (λ v. v.items) noted.items ≡ replicate workers []) }
{
    let mut noted = Vec::with_capacity(alloc, workers as usize)?;
    for _ in 0..workers {
        noted.push(Vec::new(alloc))?;
    }
    Ok(noted)
}

/// For each stripe no owner.
pub fn no_owners(alloc: Global) -> Result<Vec<Option<u8>>, AllocError>
    ensures { IfOk result (λ owners. owners.items ≡ replicate STRIPES None) }
{
    vec![in alloc; None; STRIPES as usize]
}

/// For each worker no request.
pub fn all_idle(alloc: Global, workers: u8) -> Result<Vec<Stage>, AllocError>
    ensures { IfOk result (λ stages. stages.items ≡ replicate workers Stage.Idle) }
{
    vec![in alloc; Stage::Idle; workers as usize]
}
