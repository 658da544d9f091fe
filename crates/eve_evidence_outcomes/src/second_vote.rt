//! A vote that its verifier has no right to: it has an earlier one on the batch in the view.

ghost use Rattle.std.specs.Prelude.{◌≡◌, ◌<◌, ◌≤◌, ℕ, IfSome, IfNone, IsFalse, length, take, slice_get, Some};
ghost use Rattle.std.specs.List.{AllByRecursion};
ghost use Rattle.eve_grammar.specs.Trace.{Vote as VoteValue};
ghost use Rattle.eve_frames.specs.Decoded.{vote_decoded};
ghost use Rattle.eve_views.specs.Form.{SomePlace};
ghost use Rattle.eve_votes.specs.Votes.{is_vote_on};
ghost use Rattle.eve_votes.specs.Faults.{StandsInVotes, IsFurther};
ghost use Rattle.eve_views.specs.declared.fault.Code.TheVariants as code;
ghost use Rattle.eve_evidence_outcomes.specs.SecondVote.{IsFirstOn, IsSecond, IsAgain, IsVotedAgain};

use crate::votes::is_on;
use eve_evidence::SecondVote;
use eve_frames::VoteView;
use eve_views::{Trace, Votes};

/// The first of a verifier's first votes that is on a batch in a view, if there is one.
fn first_on<'a>(votes: &Votes<'_, 'a>, count: usize, n: u32, view: u32) -> Option<VoteView<'a>>
    requires { count ≤ length votes.now }
    ensures first { IfSome result (λ w. IsFirstOn (take count votes.now) n view (w.offset, vote_decoded w)) }
    ensures none { IfNone result (AllByRecursion (λ z. IsFalse (is_vote_on n view z.1)) (take count votes.now)) }
{
    for i in 0..count {
        let vote = votes.get(i);
        if is_on(&vote, n, view) {
            return Some(vote);
        }
    }
    None
}

/// A verifier's vote at this place with the first on its batch in its view, if it stands at this byte and has an
/// earlier one.
fn first_before<'a>(
    votes: &Votes<'_, 'a>,
    verifier: u8,
    i: usize,
    at: u64,
) -> Option<SecondVote<'a>>
    requires { i < length votes.now }
    ensures first { IfSome result (λ s. (w : ℕ × VoteValue) → slice_get votes.now i ≡ Some w
        → (w.0 ≡ at) × IsSecond (take i votes.now) w s) }
    ensures verifier { IfSome result (λ s. s.verifier ≡ verifier) }
    ensures none { IfNone result ((w : ℕ × VoteValue) → slice_get votes.now i ≡ Some w → w.0 ≡ at
        → ¬ IsFurther (take i votes.now) w) }
{
    let vote = votes.get(i);
    if vote.offset() != at {
        return None;
    }
    let n = vote.seq();
    let view = vote.view();
    let Some(first) = first_on(votes, i, n, view) else {
        return None;
    };
    Some(SecondVote {
        verifier,
        batch: n,
        view,
        choice: vote.choice(),
        first: first.offset(),
        first_choice: first.choice(),
    })
}

/// A verifier's vote at this byte with the first on its batch in its view, if it has such a vote there and an earlier
/// one.
fn again_among<'a>(votes: &Votes<'_, 'a>, verifier: u8, at: u64) -> Option<SecondVote<'a>>
    ensures first { IfSome result (IsAgain votes.now at) }
    ensures verifier { IfSome result (λ s. s.verifier ≡ verifier) }
    ensures none { IfNone result (¬ SomePlace votes.now (λ before w. (w.0 ≡ at) × IsFurther before w)) }
{
    for i in 0..votes.len() {
        if let Some(second) = first_before(votes, verifier, i, at) {
            return Some(second);
        }
    }
    None
}

/// The vote at this byte, of a verifier that has an earlier one on its batch in its view, and the earliest.
///
/// docs/MODEL.md, "Evidence". One pass over the votes.
pub fn voted_again<'a>(trace: &Trace<'a>, at: u64) -> SecondVote<'a>
    requires { StandsInVotes code.TwoVotes trace.now at }
    ensures { IsVotedAgain trace.now at result }
{
    for v in 0..trace.verifier_count() {
        if let Some(second) = again_among(&trace.votes(v), v, at) {
            return second;
        }
    }
    unreachable!()
}
