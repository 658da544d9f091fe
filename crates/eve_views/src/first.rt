//! The first of the faults that are found one after another.

ghost use Rattle.std.specs.Prelude.{◌≡◌};
ghost use Rattle.eve_views.specs.First.{is_before_in_phase, is_before, first_of};

use crate::fault::Fault;

/// Of two faults, where there are two, the one that comes first, and `None` where there is none: by phase, then by
/// offset, then by number. Of two of which neither comes before the other it is the first given.
///
/// docs/MODEL.md, "Verdict".
#[inline(always)]
pub fn first_of(first: Option<Fault>, other: Option<Fault>) -> Option<Fault>
    ensures { result ≡ first_of first other }
{
    match (first, other) {
        (Some(fault), Some(found)) => if is_before(&found, &fault) {
            Some(found)
        } else {
            Some(fault)
        },
        (None, found) => found,
        (fault, None) => fault,
    }
}

/// Whether a fault comes before another.
fn is_before(fault: &Fault, other: &Fault) -> bool
    ensures { result ≡ is_before fault.now other.now }
{
    let phase = fault.code.phase();
    let others = other.code.phase();
    phase < others || (phase == others && is_before_in_phase(fault, other))
}

/// Whether a fault comes before another of its phase.
fn is_before_in_phase(fault: &Fault, other: &Fault) -> bool
    ensures { result ≡ is_before_in_phase fault.now other.now }
{
    fault.offset < other.offset
        || (fault.offset == other.offset && fault.code.number() < other.code.number())
}
