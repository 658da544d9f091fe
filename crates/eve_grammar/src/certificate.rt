//! Whether an order of a batch's indexes may be a certificate of it.

ghost use Rattle.std.specs.Prelude.{◌≡◌, ◌≤◌, ◌<◌, ℕ, List, length, slice_index};
ghost use Rattle.std.specs.List.{AllByRecursion};
ghost use Rattle.eve_grammar.specs.Certificate.{is_permutation, group_of, is_grouped, counts_from, is_certificate};
ghost use Rattle.eve_grammar.specs.inner.Groups.{AreGroupNumbers};

use crate::limits::MOST_REQUESTS;

/// Whether each number below their count stands in the order once.
/// Decides F21 Certificate.
pub(crate) fn is_permutation(order: &[u16]) -> bool
    requires { length order.now ≤ MOST_REQUESTS }
    ensures { result ≡ is_permutation (length order.now) order.now }
{
    let mut seen = [false; MOST_REQUESTS];
    for index in order {
        let index = *index as usize;
        if index >= order.len() || seen[index] {
            return false;
        }
        seen[index] = true;
    }
    true
}

/// Whether no index stands after one of a later parallelBatch, where those are the indexes' parallelBatches.
/// Decides F21 Certificate.
fn is_grouped(groups: &[u8; MOST_REQUESTS], order: &[u16]) -> bool
    requires { AllByRecursion (λ i. i < MOST_REQUESTS) order.now }
    ensures { (sizes : List ℕ) → AreGroupNumbers sizes order.now groups.now → result ≡ is_grouped sizes order.now }
{
    let mut last = 0;
    for index in order {
        let group = groups[*index as usize];
        if group < last {
            return false;
        }
        last = group;
    }
    true
}

/// Whether the order is the listed one.
fn is_listed(order: &[u16]) -> bool
    ensures { result ≡ counts_from 0 order.now }
{
    for (place, index) in order.iter().enumerate() {
        if *index as usize != place {
            return false;
        }
    }
    true
}

/// Whether an order keeps the groups of a batch, and in serial mode is the listed one, where `groups` has the
/// parallelBatch of each index, from 0.
///
/// docs/MODEL.md, "Certificate order, keeps the groups".
pub fn is_certificate(groups: &[u8; MOST_REQUESTS], serial: bool, order: &[u16]) -> bool
    requires { length order.now ≤ MOST_REQUESTS }
    ensures { (sizes : List ℕ) → ((i : ℕ) → i < length order.now → slice_index groups.now i ≡ group_of sizes i)
        → result ≡ is_certificate sizes (length order.now) serial order.now }
{
    if !is_permutation(order) {
        return false;
    }
    if !is_grouped(groups, order) {
        return false;
    }
    !serial || is_listed(order)
}
