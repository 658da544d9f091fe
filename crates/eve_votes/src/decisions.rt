//! What was decided as commit.

ghost use Rattle.std.specs.Prelude.{◌≡◌, ◌+◌, None, length, IfNone};
ghost use Rattle.std.specs.List.{All};
ghost use Rattle.eve_views.specs.declared.fault.Code.TheVariants.{TwoDecisions};
ghost use Rattle.eve_votes.specs.Votes.{IsDecided};
ghost use Rattle.eve_votes.specs.Faults.{StandsInVotes};
ghost use Rattle.eve_views.specs.Least.{Lowers};
ghost use Rattle.eve_votes.specs.inner.Least.{IsLowest};
ghost use Rattle.eve_votes.specs.Ballots.{IsStart, HasCast};
ghost use Rattle.eve_votes.specs.Decisions.{Judging, IsUnnoted, Notes, IsFound, Agrees, AreDecisions};

use crate::ballots::{Ballot, continues};
use crate::majority::decided_in;
use eve_views::{Trace, lower};

/// A view in which a batch is decided as commit, and with which token.
#[derive(Clone, Copy)]
pub(crate) struct Decision<'a> {
    pub view: u32,
    pub token: &'a [u8],
}

/// Notes a decision, where none was noted for the batch. Gives the least offset of those found so far and of the
/// batch, where one was noted: that is another view's, since each view is judged once.
/// Decides F71 TwoDecisions.
fn note<'a>(
    trace: &Trace<'a>,
    decisions: &mut Vec<Option<Decision<'a>>>,
    seq: u32,
    decision: Decision<'a>,
    least: Option<u64>,
) -> Option<u64>
    requires decided { IsDecided trace.now seq decision.view decision.token.now }
    requires unnoted { IsUnnoted decisions.old.items seq decision.view }
    requires judging { Judging trace.now decisions.old.items least }
    ensures judging { Judging trace.now decisions.new.items result }
    ensures notes { Notes decisions.old.items decisions.new.items seq decision.entry.view }
    ensures lowers { Lowers least result }
    ensures found { IsFound trace.now decisions.new.items result seq decision.entry.view }
{
    trace.recall_limits();
    let place = seq as usize;
    if decisions[place].is_some() {
        return lower(least, trace.batch(seq).offset());
    }
    decisions[place] = Some(decision);
    least
}

/// Judges a batch in a view, whose votes begin at this place.
fn judge<'a>(
    trace: &Trace<'a>,
    ballots: &[Ballot],
    decisions: &mut Vec<Option<Decision<'a>>>,
    start: usize,
    ballot: Ballot,
    least: Option<u64>,
) -> Option<u64>
    requires cast { HasCast trace.now ballots.now }
    requires start { IsStart ballots.now start ballot.seq ballot.view 0 }
    requires unnoted { IsUnnoted decisions.old.items ballot.seq ballot.view }
    requires judging { Judging trace.now decisions.old.items least }
    ensures judging { Judging trace.now decisions.new.items result }
    ensures notes { Notes decisions.old.items decisions.new.items ballot.seq ballot.view }
    ensures lowers { Lowers least result }
    ensures agrees { Agrees trace.now decisions.new.items result ballot.seq ballot.view }
{
    let Ballot { seq, view, .. } = ballot;
    match decided_in(trace, ballots, start, seq, view) {
        Some(token) => note(trace, decisions, seq, Decision { view, token }, least),
        None => least,
    }
}

/// Finds what is decided as commit. Gives the least offset of a batch with two decisions.
pub(crate) fn decide<'a>(
    trace: &Trace<'a>,
    ballots: &[Ballot],
    decisions: &mut Vec<Option<Decision<'a>>>,
) -> Option<u64>
    requires cast { HasCast trace.now ballots.now }
    requires long { length decisions.old.items ≡ length trace.now.batches + 1 }
    requires none { All (λ d. d ≡ None) decisions.old.items }
    ensures least { IsLowest (StandsInVotes TwoDecisions trace.now) result }
    ensures decided { IfNone result (AreDecisions trace.now decisions.new.items) }
{
    trace.recall_limits();
    let mut least = None;
    for i in 0..ballots.len() {
        if !continues(ballots, i) {
            least = judge(trace, ballots, decisions, i, ballots[i], least);
        }
    }
    least
}
