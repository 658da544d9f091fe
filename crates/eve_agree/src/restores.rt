//! The faults of restores.

ghost use Rattle.std.specs.Prelude.{◌≡◌, ◌≤◌, ◌<◌, IfOk, IfErr, IsTrue, Some, length, slice_get};
ghost use Rattle.std.specs.List.{list_all, AllByRecursion};
ghost use Rattle.eve_smallbank.specs.Chain.{Table};
ghost use Rattle.eve_smallbank.specs.declared.entry.Entry as noted;
ghost use Rattle.eve_grammar.specs.Limits.{is_restore, is_rising};
ghost use Rattle.eve_frames.specs.Decoded.{rollback_decoded};
ghost use Rattle.eve_views.specs.Form.{IfFound, IsLeast, HasNone, IsFaultIn};
ghost use Rattle.eve_views.specs.declared.fault.CheckFault.TheVariants.{Found};
ghost use Rattle.eve_views.specs.declared.fault.Code.TheVariants as code;
ghost use Rattle.eve_history.specs.SectionHistory.{ExecutedAttempt, section_history, IsRightSection};
ghost use Rattle.eve_chains.specs.Along.{entries_along, AreWithin};
ghost use Rattle.eve_chains.specs.Sound.{SettledAreSound};
ghost use Rattle.eve_agree.specs.Tables.{RestoresAreRight, are_written_in};
ghost use Rattle.eve_agree.specs.Marks.{marking_of, unmarked, marked, noted_between, written_in};
ghost use Rattle.eve_agree.specs.Restores.{StandsInRestores};

use crate::first_seen::FirstSeen;
use eve_chains::Settled;
use eve_frames::RollbackView;
use eve_history::History;
use eve_views::{CheckFault, Code, Fault, Step, Trace};
use std::alloc::Global;

/// Marks the rows that an attempt wrote, in its certificate's order.
fn note_attempt(marks: &mut FirstSeen, history: &History<'_>, i: usize)
    requires there { i < length history.now.attempts }
    requires within { AllByRecursion (λ r. AreWithin (length marks.old) r.ordered) history.now.attempts }
    ensures as_many { length marks.new ≡ length marks.old }
    ensures marks { (r : ExecutedAttempt) → slice_get history.now.attempts i ≡ Some r → marking_of marks.new
        ≡ marked (marking_of marks.old) (entries_along r.ordered) }
{
    for place in 0..history.attempt(i).len() {
        marks.note(history.ordered(i, place).entries());
    }
}

/// The attempts that a rollback discards: those that are open where it stands, by their numbers in the section.
#[derive(Clone, Copy)]
pub(crate) struct Discarded<'h, 'a> {
    /// What the replica's section tells.
    pub history: &'h History<'a>,
    /// The first of them.
    pub first: usize,
    /// The attempt behind the last.
    pub end: usize,
}

/// Marks the rows that the discarded attempts wrote, one after another.
pub(crate) fn note_attempts(marks: &mut FirstSeen, discarded: Discarded<'_, '_>)
    requires rising { discarded.first ≤ discarded.end }
    requires there { discarded.end ≤ length discarded.history.now.attempts }
    requires within { AllByRecursion (λ r. AreWithin (length marks.old) r.ordered) discarded.history.now.attempts }
    ensures as_many { length marks.new ≡ length marks.old }
    ensures marks { marking_of marks.new ≡ marked (marking_of marks.old)
        (noted_between discarded.entry.history.now.attempts discarded.entry.first discarded.entry.end) }
{
    for i in discarded.first..discarded.end {
        note_attempt(marks, discarded.history, i);
    }
}

/// Whether a rollback restores exactly the rows that the discarded attempts wrote, each as its first write saw it.
fn is_right(
    marks: &mut FirstSeen,
    discarded: Discarded<'_, '_>,
    rollback: &RollbackView<'_>,
) -> bool
    requires rising { discarded.first ≤ discarded.end }
    requires there { discarded.end ≤ length discarded.history.now.attempts }
    requires within { AllByRecursion (λ r. AreWithin (length marks.old) r.ordered) discarded.history.now.attempts }
    requires rows { IsTrue (list_all (is_restore (length marks.old)) (rollback_decoded rollback.now).restores) }
    requires restores { IsTrue (is_rising (rollback_decoded rollback.now).restores) }
    requires none { marking_of marks.old ≡ unmarked }
    ensures as_many { length marks.new ≡ length marks.old }
    ensures right { let es = noted_between discarded.entry.history.now.attempts discarded.entry.first
        discarded.entry.end in
        (table : Table) → marked unmarked es ≡ written_in table es
        → result ≡ are_written_in table es (rollback_decoded rollback.now).restores }
    ensures none { IsTrue result → marking_of marks.new ≡ unmarked }
{
    note_attempts(marks, discarded);
    marks.take_all(rollback.restores())
}

/// Judges a replica's rollbacks, by what the first write of each row in the discarded attempts saw. That is what is
/// committed, where the settled attempts are sound.
pub(crate) fn judge(
    alloc: Global,
    trace: &Trace<'_>,
    history: &History<'_>,
) -> Result<(), CheckFault>
    requires history { history.now ≡ section_history trace.now history.now.replica }
    requires right { IsRightSection trace.now history.now.replica }
    ensures right { SettledAreSound trace.now history.now.replica
        → IfOk result (λ _. RestoresAreRight trace.now history.now.replica) }
    ensures least { SettledAreSound trace.now history.now.replica
        → IfErr result (λ why. IfFound why (IsLeast (IsFaultIn StandsInRestores trace.now history.now.replica))) }
{
    trace.recall_limits();
    if history.rollbacks() == 0 {
        return Ok(());
    }
    let mut marks = FirstSeen::new(alloc, 2 * trace.customer_count() as usize)?;
    let mut first = 0;
    let mut end = 0;
    let mut steps = trace.section(history.replica());
    while let Some(step) = steps.next() {
        match step {
            Step::Attempt(_, _) => {
                prove!(end < history.attempts());
                end += 1;
            }
            Step::Commit(_) => first += 1,
            Step::Rollback(rollback) => {
                let discarded = Discarded {
                    history,
                    first,
                    end,
                };
                if !is_right(&mut marks, discarded, &rollback) {
                    return Err(wrong(history.replica(), rollback.offset()));
                }
                first = end;
            }
            // what it discards is no rollback's to restore
            Step::Transfer(_) => first = end,
        }
    }
    Ok(())
}

/// Judges a replica's rollbacks: each restores exactly the rows that the attempts which it discards wrote, with version
/// and value as they are committed; else `Found`, the first that does not.
///
/// docs/MODEL.md, "Working table, committed table". The replica's attempts were judged before: `sound` is what `check`
/// ensures, under the same name, where it gives `settled`. The time is linear in what discarded attempts wrote; the
/// memory is a mark for each row, and none where there is no rollback. Refused memory decides nothing.
pub fn rollbacks(
    alloc: Global,
    trace: &Trace<'_>,
    history: &History<'_>,
    _settled: &Settled,
) -> Result<(), CheckFault>
    requires history { history.now ≡ section_history trace.now history.now.replica }
    requires sound { SettledAreSound trace.now history.now.replica }
    ensures right { IfOk result (λ _. RestoresAreRight trace.now history.now.replica) }
    ensures none { IfOk result (λ _. HasNone (IsFaultIn StandsInRestores trace.now history.now.replica)) }
    ensures least { IfErr result (λ why. IfFound why
        (IsLeast (IsFaultIn StandsInRestores trace.now history.now.replica))) }
{
    history.recall_right();
    judge(alloc, trace, history)
}

/// The fault of a rollback that stands there.
fn wrong(replica: u8, offset: u64) -> CheckFault
    ensures { result ≡ Found (record { code = code.Restore; offset = offset; replica = Some replica }) }
{
    CheckFault::Found(Fault {
        code: Code::Restore,
        offset,
        replica: Some(replica),
    })
}
