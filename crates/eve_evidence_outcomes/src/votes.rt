//! The votes of a verifier on a batch in a view.

ghost use Rattle.std.specs.Prelude.{◌≡◌, ◌<◌, ◌≤◌, ◌+◌, ℕ, List, [], ◌∷◌, IsTrue, IsFalse, IfSome, IfNone, length};
ghost use Rattle.std.specs.Prelude.{drop, slice_get, Some};
ghost use Rattle.std.specs.Option.{option_map};
ghost use Rattle.eve_grammar.specs.Bodies.{borrowed_choice as choice_of};
ghost use Rattle.eve_grammar.specs.Trace.{Vote as VoteValue};
ghost use Rattle.eve_frames.specs.Decoded.{vote_decoded};
ghost use Rattle.eve_votes.specs.Votes.{is_vote_on};
ghost use Rattle.eve_evidence_outcomes.specs.Polls.{votes_on, vote_told, only_commit, TellsChoice};

use eve_evidence::{VerifierChoice, VerifierVote};
use eve_frames::VoteView;
use eve_grammar::Choice;
use eve_views::Votes;
use eve_votes::is_same_choice;

/// Whether a vote is on the batch in the view.
pub(crate) fn is_on(vote: &VoteView<'_>, n: u32, view: u32) -> bool
    ensures { result ≡ is_vote_on n view (vote_decoded vote.now) }
{
    vote.seq() == n && vote.view() == view
}

/// The place of the next vote on the batch in the view, from a place on, if there is one.
fn next_on(votes: &Votes<'_, '_>, from: usize, n: u32, view: u32) -> Option<usize>
    requires { from ≤ length votes.now }
    ensures next { IfSome result (λ i. (w : ℕ × VoteValue) × (slice_get votes.now i ≡ Some w)
        × (votes_on n view (drop from votes.now) ≡ w ∷ votes_on n view (drop (i + 1) votes.now))) }
    ensures there { IfSome result (λ i. i < length votes.now) }
    ensures none { IfNone result (votes_on n view (drop from votes.now) ≡ []) }
{
    for i in from..votes.len() {
        let vote = votes.get(i);
        if is_on(&vote, n, view) {
            return Some(i);
        }
    }
    None
}

/// Whether there is a vote on the batch in the view from a place on.
fn has_more(votes: &Votes<'_, '_>, from: usize, n: u32, view: u32) -> bool
    requires { from ≤ length votes.now }
    ensures more { IsTrue result → (w : ℕ × VoteValue) × (ws : List (ℕ × VoteValue))
        × (votes_on n view (drop from votes.now) ≡ w ∷ ws) }
    ensures none { IsFalse result → votes_on n view (drop from votes.now) ≡ [] }
{
    match next_on(votes, from, n, view) {
        Some(_) => true,
        None => false,
    }
}

/// What a verifier did about a choice on the batch in the view: with two votes there it counts for none.
pub(crate) fn told_vote(
    votes: &Votes<'_, '_>,
    n: u32,
    view: u32,
    choice: Choice<'_>,
) -> VerifierVote
    ensures { result ≡ vote_told (choice_of choice.entry) (votes_on n view votes.now) }
{
    let Some(i) = next_on(votes, 0, n, view) else {
        return VerifierVote::NoVote;
    };
    let first = votes.get(i);
    prove!(i < votes.len());
    if has_more(votes, i + 1, n, view) {
        return VerifierVote::Otherwise(first.offset());
    }
    if is_same_choice(first.choice(), choice) {
        VerifierVote::For(first.offset())
    } else {
        VerifierVote::Otherwise(first.offset())
    }
}

/// What a verifier said first on the batch in the view.
pub(crate) fn told_choice<'a>(votes: &Votes<'_, 'a>, n: u32, view: u32) -> VerifierChoice<'a>
    ensures { TellsChoice (votes_on n view votes.now) result }
{
    let Some(i) = next_on(votes, 0, n, view) else {
        return VerifierChoice::NoVote;
    };
    let first = votes.get(i);
    match first.choice() {
        Choice::ForCommit(token) => VerifierChoice::Commit {
            token,
            at: first.offset(),
        },
        Choice::ForRollback => VerifierChoice::Rollback(first.offset()),
    }
}

/// The token with which a verifier counts for a commit of the batch in the view: that of its only vote there.
pub(crate) fn only_commit<'a>(votes: &Votes<'_, 'a>, n: u32, view: u32) -> Option<&'a [u8]>
    ensures { option_map (λ token. token.now) result ≡ only_commit (votes_on n view votes.now) }
{
    let Some(i) = next_on(votes, 0, n, view) else {
        return None;
    };
    let first = votes.get(i);
    prove!(i < votes.len());
    if has_more(votes, i + 1, n, view) {
        return None;
    }
    match first.choice() {
        Choice::ForCommit(token) => Some(token),
        Choice::ForRollback => None,
    }
}
