//! A request applied to the stripes that it needs.

ghost use Rattle.std.specs.Prelude.{◌≡◌, ◌<◌, ℕ, List, true, IfOk, IfErr, OnErr, length, slice_set};
ghost use Rattle.eve_smallbank.specs.SmallBank.{plain};
ghost use Rattle.eve_smallbank.specs.Chain.{table_after};
ghost use Rattle.eve_smallbank.specs.Execution.{executed_on};
ghost use Rattle.eve_stamps.specs.Applied.{noted_of};
ghost use Rattle.eve_stamps.specs.Stripes.{is_above, rows_now, stripe_with};
ghost use Rattle.eve_stamps.specs.Requests.{rows_in_two, entries_within, entries_outside};
ghost use Rattle.eve_stamps.specs.Requests.{refusal, refusal_of_two, IsRefusedFor};
ghost use Rattle.eve_smallbank.specs.Touch.{touched_of, rows_in};
ghost use Rattle.eve_stamps.specs.declared.limits.TheConstants.{STRIPES};
ghost use Rattle.eve_stamps_schedule.specs.Stripes.{needs};
ghost use Rattle.eve_stamps_schedule.specs.Schedule.{stripe_at, table_of_stripes};
ghost use Rattle.eve_stamps_schedule.specs.AppliedRequests.{HaveTheirRows, AreFresh, IsKeptAt};

use eve_accounts::Names;
use eve_smallbank::{Request, Touched, touched};
use eve_stamps::{
    AccessRecord, Span, Stamp, StampFault, Stripe, apply, apply_two, span_of, untouched,
};

/// The record of the request, applied to the stripes that it needs. The tick is above all that these have had, and no
/// row is at the greatest version. For lack of memory it is not applied, and the stripes are as they were.
pub fn applied_on(
    stripes: &mut [Stripe],
    names: &Names,
    request: &Request,
    stamp: Stamp,
) -> Result<AccessRecord, StampFault>
    requires stripes { length stripes.old ≡ STRIPES }
    requires rows { HaveTheirRows (length names.now.items) stripes.old }
    requires above { (i : ℕ) → needs names.now.items (plain request.now) i ≡ true
        → is_above stamp.tick (stripe_at stripes.old i).greatest ≡ true }
    requires fresh { AreFresh (table_of_stripes stripes.old) }
    ensures exact { IfOk result (λ r. r
        ≡ noted_of stamp.worker stamp.place stamp.index stamp.tick
        (executed_on names.now.items (table_of_stripes stripes.old) (plain request.now))) }
    ensures table { IfOk result
        (λ r. table_of_stripes stripes.new ≡ table_after (table_of_stripes stripes.old) r.entries) }
    ensures stripes { IfOk result (λ r. (i : ℕ)
        → IsKeptAt stamp.tick (needs names.now.items (plain request.now) i)
        (stripe_at stripes.old i) (stripe_at stripes.new i)) }
    ensures kept { OnErr result (stripes.new ≡ stripes.old) }
    ensures memory { IfErr result (λ why. why ≡ StampFault.Memory) }
{
    let reached = touched(request, names);
    let rows = match &reached {
        Touched::Refused(why) => return Ok(untouched(*why, stamp)),
        Touched::Rows(rows) => rows,
    };
    let span = span_of(rows);
    if span.first == span.last {
        return on_one(stripes, span.first, request, &reached, stamp);
    }
    on_two(stripes, span, request, &reached, stamp)
}

/// On one stripe, in which all rows lie.
fn on_one(
    stripes: &mut [Stripe],
    at: usize,
    request: &Request,
    reached: &Touched,
    stamp: Stamp,
) -> Result<AccessRecord, StampFault>
    requires there { at < length stripes.old }
    requires touched { (names : List (List ℕ)) × (reached.now ≡ touched_of names (plain request.now)) }
    ensures exact { (names : List (List ℕ)) → reached.now ≡ touched_of names (plain request.now)
        → IfOk result (λ r. r ≡ noted_of stamp.worker stamp.place stamp.index stamp.tick
        (executed_on names (rows_now (stripe_at stripes.old at)) (plain request.now))) }
    ensures journal { IfOk result (λ r. stripes.new
        ≡ slice_set stripes.old at (stripe_with (stripe_at stripes.old at) stamp.tick r.entries)) }
    ensures refused { IsRefusedFor (refusal (stripe_at stripes.old at) stamp.tick (rows_in reached.now)) result }
    ensures kept { OnErr result (stripes.new ≡ stripes.old) }
{
    apply(&mut stripes[at], request, reached, stamp)
}

/// On two stripes, of which the first comes before the last.
fn on_two(
    stripes: &mut [Stripe],
    span: Span,
    request: &Request,
    reached: &Touched,
    stamp: Stamp,
) -> Result<AccessRecord, StampFault>
    requires apart { span.first < span.last }
    requires there { span.last < length stripes.old }
    requires touched { (names : List (List ℕ)) × (reached.now ≡ touched_of names (plain request.now)) }
    ensures exact { (names : List (List ℕ)) → reached.now ≡ touched_of names (plain request.now)
        → IfOk result (λ r. r ≡ noted_of stamp.worker stamp.place stamp.index stamp.tick
        (executed_on names (rows_in_two (stripe_at stripes.old span.first) (stripe_at stripes.old span.last))
        (plain request.now))) }
    ensures journals { let first = stripe_at stripes.old span.first in IfOk result (λ r. stripes.new
        ≡ slice_set (slice_set stripes.old span.first (stripe_with first stamp.tick (entries_within first r.entries)))
        span.last
        (stripe_with (stripe_at stripes.old span.last) stamp.tick (entries_outside first r.entries))) }
    ensures refused { let first = stripe_at stripes.old span.first in
        IsRefusedFor (refusal_of_two first (stripe_at stripes.old span.last) stamp.tick (rows_in reached.now)) result }
    ensures kept { OnErr result (stripes.new ≡ stripes.old) }
{
    let (prefix, back) = stripes.split_at_mut(span.last);
    apply_two(
        &mut prefix[span.first],
        &mut back[0],
        request,
        reached,
        stamp,
    )
}
