//! The views in which a batch is decided, one after another.

ghost use Rattle.std.specs.Prelude.{◌≡◌, ◌≤◌, ℕ, List, IfOk, IfSome, IfNone};
ghost use Rattle.eve_votes.specs.Votes.{IsDecided};
ghost use Rattle.eve_votes.specs.Ballots.{IsStart, HasCast};
ghost use Rattle.eve_votes.specs.NextDecision.{IsTimelyDecision, IsNextDecision};

use crate::ballots::{Ballot, backers_from, continues, start_of};
use crate::decided::{Decided, array_of};
use crate::majority::decided_in;
use crate::voting::only_votes;
use eve_grammar::Choice;
use eve_views::Trace;
use std::alloc::{AllocError, Global};
use std::marker::Model;

/// The votes of a trace, sorted by batch, then by view, whatever faults they have.
///
/// docs/MODEL.md, "Decided, rolled back". Contracts see it as the trace that it was made of. It keeps an entry for each
/// vote that is its verifier's only one on a batch in a view.
#[derive(Drop)]
pub struct SortedVotes<'t, 'a> {
    trace: &'t Trace<'a>,
    ballots: Vec<Ballot>,
}

impl<'t, 'a> Model for SortedVotes<'t, 'a> {
    ghost use Rattle.eve_grammar.specs.Trace.{Trace};

    ghost Value = { Trace };

    ghost use Rattle.eve_votes.specs.Ballots.{HasCast};

    ghost view = { λ x. x.trace.now };

    ghost invariant = { λ x. HasCast x.trace.now x.ballots.items };
}

/// The decision on a vote's batch in its view, if there is one. The votes on them begin at this place.
fn decision_from(
    trace: &Trace<'_>,
    ballots: &[Ballot],
    start: usize,
    ballot: Ballot,
) -> Option<Decided>
    requires cast { HasCast trace.now ballots.now }
    requires start { IsStart ballots.now start ballot.seq ballot.view 0 }
    ensures view { IfSome result (λ d. d.view ≡ ballot.view) }
    ensures is { IfSome result (IsTimelyDecision trace.now ballot.seq ballot.view) }
    ensures none { IfNone result ((token : List ℕ) → ¬ IsDecided trace.now ballot.seq ballot.view token) }
{
    trace.recall_limits();
    let Ballot { seq, view, .. } = ballot;
    let Some(token) = decided_in(trace, ballots, start, seq, view) else {
        return None;
    };
    let votes = backers_from(trace, ballots, start, seq, view, Choice::ForCommit(token));
    Some(Decided {
        view,
        token: array_of(token),
        votes,
    })
}

/// The least view from this one on in which a batch is decided.
fn next_decision(trace: &Trace<'_>, ballots: &[Ballot], n: u32, from: u64) -> Option<Decided>
    requires { HasCast trace.now ballots.now }
    ensures next { IfSome result (IsNextDecision trace.now n from) }
    ensures none { IfNone result ((view : ℕ) (token : List ℕ) → from ≤ view → ¬ IsDecided trace.now n view token) }
{
    trace.recall_limits();
    let start = start_of(ballots, n, from);
    for i in start..ballots.len() {
        let ballot = ballots[i];
        if ballot.seq != n {
            return None;
        }
        if !continues(ballots, i) {
            if let Some(decided) = decision_from(trace, ballots, i, ballot) {
                return Some(decided);
            }
        }
    }
    None
}

impl<'t, 'a> SortedVotes<'t, 'a> {
    /// Sorts the votes of a trace.
    pub fn of(alloc: Global, trace: &'t Trace<'a>) -> Result<SortedVotes<'t, 'a>, AllocError>
        ensures { IfOk result (λ votes. votes ≡ trace.now) }
    {
        let mut ballots = Vec::new(alloc);
        let _ = only_votes(alloc, trace, &mut ballots)?;
        Ok(SortedVotes { trace, ballots })
    }

    /// The least view from this one on in which a batch is decided as commit, by the batch's number from 1. `None`
    /// where it is decided in no such view, or there is no such batch.
    ///
    /// Where the batch's votes in these views begin is found by bisection. Then they are gone through in their order,
    /// until a view is decided.
    pub fn next_decision(&self, n: u32, from: u64) -> Option<Decided>
        ensures next { IfSome result (IsNextDecision self.now n from) }
        ensures none { IfNone result ((view : ℕ) (token : List ℕ) → from ≤ view → ¬ IsDecided self.now n view token) }
    {
        next_decision(self.trace, &self.ballots, n, from)
    }
}
