//! What the verifiers decided.

ghost use Rattle.std.specs.Prelude.{◌≡◌, ◌+◌, ℕ, List, None, Some, length, IfOk, IfErr, IsTrue, ◌↔◌};
ghost use Rattle.std.specs.List.{All};
ghost use Rattle.std.specs.Option.{option_map};
ghost use Rattle.eve_grammar.specs.Trace.{ForCommit};
ghost use Rattle.eve_views.specs.Form.{IfFound, IsLeast, HasNone, IsFaultOutside};
ghost use Rattle.eve_votes.specs.Votes.{backers, IsDecided, IsRolledBack};
ghost use Rattle.eve_votes.specs.Faults.{outside, AreVotesSound, StandsInVotes};

use crate::ballots::{Ballot, backers};
use crate::decided::array_of;
use crate::decisions::{Decision, decide};
use crate::majority::is_quorum;
use crate::voting::only_votes;
use eve_grammar::Choice;
use eve_views::{CheckFault, Code, Fault, Trace, first_of};
use std::alloc::{AllocError, Global};
use std::marker::Model;

/// The votes of a trace, counted.
///
/// docs/MODEL.md, "Decided, rolled back". Contracts see it as the trace that it was made of: what is decided is
/// said of that trace by `IsDecided` and `IsRolledBack`. It keeps an entry for each vote, and a place for each batch.
#[derive(Drop)]
pub struct Tally<'t, 'a> {
    trace: &'t Trace<'a>,
    ballots: Vec<Ballot>,
    decisions: Vec<Option<Decision<'a>>>,
}

impl<'t, 'a> Model for Tally<'t, 'a> {
    ghost use Rattle.eve_grammar.specs.Trace.{Trace};

    ghost Value = { Trace };

    ghost use Rattle.eve_votes.specs.HeldTallies.{IsTally};

    ghost view = { λ x. x.trace.now };

    ghost invariant = { IsTally };
}

/// A place for each batch, by its number, with nothing decided.
fn none_decided<'a>(alloc: Global, batches: u32) -> Result<Vec<Option<Decision<'a>>>, AllocError>
    ensures long { IfOk result (λ v. length v.items ≡ batches + 1) }
    ensures none { IfOk result (λ v. All (λ d. d ≡ None) v.items) }
{
    let mut decisions = Vec::new(alloc);
    decisions.resize(batches as usize + 1, None)?;
    Ok(decisions)
}

/// The fault outside the sections, where an offset was found.
fn outside(code: Code, found: Option<u64>) -> Option<Fault>
    ensures { result ≡ option_map (outside code) found }
{
    match found {
        Some(offset) => Some(Fault {
            code,
            offset,
            replica: None,
        }),
        None => None,
    }
}

impl<'t, 'a> Tally<'t, 'a> {
    /// Counts the votes, or answers `Found`, the first fault of votes.
    ///
    /// docs/MODEL.md, "Faults": a further vote of a verifier on a batch in a view stands at that Vote, two views
    /// of a batch decided as commit stand at the Batch. The votes are sorted once; then those on a batch in a view are
    /// looked at once for the token that leads, and once more where it may have a quorum. Refused memory decides
    /// nothing.
    pub fn of(alloc: Global, trace: &'t Trace<'a>) -> Result<Tally<'t, 'a>, CheckFault>
        ensures trace { IfOk result (λ tally. tally ≡ trace.now) }
        ensures sound { IfOk result (λ _. AreVotesSound trace.now) }
        ensures none { IfOk result (λ _. HasNone (IsFaultOutside StandsInVotes trace.now)) }
        ensures least { IfErr result (λ e. IfFound e (IsLeast (IsFaultOutside StandsInVotes trace.now))) }
    {
        let mut ballots = Vec::new(alloc);
        let again = only_votes(alloc, trace, &mut ballots)?;
        let mut decisions = none_decided(alloc, trace.head().batches)?;
        let apart = decide(trace, &ballots, &mut decisions);
        match first_of(
            outside(Code::TwoVotes, again),
            outside(Code::TwoDecisions, apart),
        ) {
            Some(fault) => Err(CheckFault::Found(fault)),
            None => Ok(Tally {
                trace,
                ballots,
                decisions,
            }),
        }
    }

    /// The view in which a batch is decided as commit, and with which token of 32 bytes, by the batch's number
    /// from 1. `None` where it is decided in no view, or there is no such batch.
    pub fn decided(&self, n: u32) -> Option<(u32, [u8; 32])>
        ensures { (view : ℕ) (token : List ℕ) → IsDecided self.now n view token ↔ (result ≡ Some (view, token)) }
    {
        let Some(kept) = self.decisions.get(n as usize) else {
            return None;
        };
        match *kept {
            Some(decision) => Some((decision.view, array_of(decision.token))),
            None => None,
        }
    }

    /// How many verifiers have exactly one vote on a batch in a view, and it is for a commit with this token.
    /// There is one for each verifier at most, so 16 at most.
    pub fn votes_for(&self, n: u32, view: u32, token: &[u8; 32]) -> u8
        ensures { result ≡ backers self.now n view (ForCommit token.now) }
    {
        backers(self.trace, &self.ballots, n, view, Choice::ForCommit(token))
    }

    /// Whether a quorum of verifiers has exactly one vote on a batch in a view, and it is for a rollback.
    pub fn rolled_back(&self, n: u32, view: u32) -> bool
        ensures { IsTrue result ↔ IsRolledBack self.now n view }
    {
        let votes = backers(self.trace, &self.ballots, n, view, Choice::ForRollback);
        is_quorum(self.trace, votes)
    }
}
