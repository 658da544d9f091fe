//! The votes as they stand in a trace.

ghost use Rattle.std.specs.Prelude.{◌≡◌, ◌↔◌, ◌<◌, ◌++◌, [], IsTrue, length, IfOk, OnOk};
ghost use Rattle.eve_views.specs.declared.fault.Code.TheVariants.{TwoVotes};
ghost use Rattle.eve_grammar.specs.Spelling.{votes_of};
ghost use Rattle.eve_votes.specs.Faults.{StandsInVotes};
ghost use Rattle.eve_votes.specs.inner.Least.{IsLowest};
ghost use Rattle.eve_votes.specs.Ballots.{ballots_from, ballots_of, FollowsAlike, HasVotes, HasCast};

use crate::ballots::{Ballot, is_alike, vote_at};
use eve_views::{Trace, lower};
use std::alloc::{AllocError, Global};

/// Appends the votes of a verifier.
fn append(trace: &Trace<'_>, ballots: &mut Vec<Ballot>, verifier: u8) -> Result<(), AllocError>
    requires { verifier < length trace.now.verifiers }
    ensures { OnOk result (ballots.new.items
        ≡ ballots.old.items ++ ballots_from verifier 0 (votes_of trace.now verifier)) }
{
    let _bytes = trace.bytes();
    let votes = trace.votes(verifier);
    ballots.reserve(votes.len())?;
    for place in 0..votes.len() {
        let vote = votes.get(place);
        ballots.push(Ballot {
            seq: vote.seq(),
            view: vote.view(),
            verifier,
            place: place as u32,
        })?;
    }
    Ok(())
}

/// The votes of all verifiers.
fn votes_in(alloc: Global, trace: &Trace<'_>) -> Result<Vec<Ballot>, AllocError>
    ensures { IfOk result (λ ballots. ballots.items ≡ ballots_of trace.now) }
{
    let mut ballots = Vec::new(alloc);
    for verifier in 0..trace.head().verifiers {
        append(trace, &mut ballots, verifier)?;
    }
    Ok(ballots)
}

/// The votes of all verifiers, by batch, then by view, then by verifier, then as they stand.
fn cast(alloc: Global, trace: &Trace<'_>) -> Result<Vec<Ballot>, AllocError>
    ensures { IfOk result (λ ballots. HasVotes trace.now ballots.items) }
{
    let mut ballots = votes_in(alloc, trace)?;
    ballots.as_mut_slice().sort_unstable();
    Ok(ballots)
}

/// Whether the vote at this place is of the verifier that has the one before it, on the same batch in the same view.
/// Decides F70 TwoVotes.
fn follows(ballots: &[Ballot], i: usize) -> bool
    ensures { IsTrue result ↔ FollowsAlike ballots.now i }
{
    i > 0 && i < ballots.len() && is_alike(&ballots[i - 1], &ballots[i])
}

/// Finds the votes that are a verifier's only ones on their batch in their view. Gives the least offset of the others,
/// the first of each kind left out.
/// Decides F70 TwoVotes.
fn sift(
    trace: &Trace<'_>,
    ballots: &[Ballot],
    only: &mut Vec<Ballot>,
) -> Result<Option<u64>, AllocError>
    requires cast { HasVotes trace.now ballots.now }
    requires none { only.old.items ≡ [] }
    ensures only { OnOk result (HasCast trace.now only.new.items) }
    ensures least { IfOk result (IsLowest (StandsInVotes TwoVotes trace.now)) }
{
    let mut least = None;
    for i in 0..ballots.len() {
        let ballot = ballots[i];
        if follows(ballots, i) {
            least = lower(least, vote_at(trace, ballot).offset());
        } else if !follows(ballots, i + 1) {
            only.push(ballot)?;
        }
    }
    Ok(least)
}

/// Appends those votes of the trace that are their verifier's only ones on a batch in a view. Returns the byte at which
/// the first vote begins whose verifier has an earlier one for its batch and view, if any.
pub(crate) fn only_votes(
    alloc: Global,
    trace: &Trace<'_>,
    only: &mut Vec<Ballot>,
) -> Result<Option<u64>, AllocError>
    requires { only.old.items ≡ [] }
    ensures only { OnOk result (HasCast trace.now only.new.items) }
    ensures least { IfOk result (IsLowest (StandsInVotes TwoVotes trace.now)) }
{
    let cast = cast(alloc, trace)?;
    only.reserve(cast.len())?;
    sift(trace, &cast, only)
}
