//! The votes of a trace, by batch, view and verifier.

ghost use Rattle.std.specs.Prelude.{◌≡◌, ◌<◌, ◌+◌, ◌↔◌, Some, length, slice_get, filter, IsTrue};
ghost use Rattle.std.specs.Option.{option_map};
ghost use Rattle.eve_grammar.specs.Trace.{Choice as ChoiceValue};
ghost use Rattle.eve_grammar.specs.Bodies.{borrowed_choice as choice_of};
ghost use Rattle.eve_grammar.specs.Spelling.{votes_at, votes_of};
ghost use Rattle.eve_frames.specs.Decoded.{vote_decoded};
ghost use Rattle.eve_votes.specs.Votes.{same_choice, is_vote_on, is_only, backers};
ghost use Rattle.eve_views.specs.Order.{AreInOrder};
ghost use Rattle.eve_votes.specs.Ballots.{is_alike, is_fellow, is_at, is_lower, is_for, IsBefore, IsStart};
ghost use Rattle.eve_votes.specs.Ballots.{Continues, HasCast};

use eve_frames::VoteView;
use eve_grammar::Choice;
use eve_views::Trace;

/// A vote: on which batch and view, of which verifier, by its number from 0, and at which place among that one's votes.
#[derive(Clone, Copy, PartialEq, Eq, PartialOrd, Ord)]
pub(crate) struct Ballot {
    pub seq: u32,
    pub view: u32,
    pub verifier: u8,
    pub place: u32,
}

/// Whether two votes are a verifier's on one batch in one view.
pub(crate) fn is_alike(a: &Ballot, b: &Ballot) -> bool
    ensures { result ≡ is_alike a.now b.now }
{
    a.seq == b.seq && a.view == b.view && a.verifier == b.verifier
}

/// Whether two votes are on one batch in one view.
fn is_fellow(a: &Ballot, b: &Ballot) -> bool
    ensures { result ≡ is_fellow a.now b.now }
{
    a.seq == b.seq && a.view == b.view
}

/// Whether the vote at this place is on the batch and in the view of the one before it.
pub(crate) fn continues(ballots: &[Ballot], i: usize) -> bool
    ensures { IsTrue result ↔ Continues ballots.now i }
{
    i > 0 && i < ballots.len() && is_fellow(&ballots[i - 1], &ballots[i])
}

/// Whether a vote is on an earlier batch, or on the same in an earlier view.
fn is_lower(ballot: &Ballot, seq: u32, view: u64) -> bool
    ensures { result ≡ is_lower seq view ballot.now }
{
    ballot.seq < seq || (ballot.seq == seq && u64::from(ballot.view) < view)
}

/// The vote as it stands in the trace.
pub(crate) fn vote_at<'a>(trace: &Trace<'a>, ballot: Ballot) -> VoteView<'a>
    requires verifier { ballot.verifier < length trace.now.verifiers }
    requires place { ballot.place < length (votes_of trace.now ballot.verifier) }
    ensures { slice_get (votes_at trace.now ballot.verifier) ballot.place
        ≡ Some (result.offset, vote_decoded result) }
{
    trace.votes(ballot.verifier).get(ballot.place as usize)
}

/// Where the votes on the batch in this view begin, or those in later views where it has none in this.
pub(crate) fn start_of(ballots: &[Ballot], seq: u32, view: u64) -> usize
    requires { AreInOrder IsBefore ballots.now }
    ensures { IsStart ballots.now result seq view 0 }
{
    ballots.partition_point(
        |ballot: &Ballot| -> bool
            ensures { result ≡ is_lower seq view ballot.now }
        { is_lower(ballot, seq, view) },
    )
}

/// Whether the vote at this place is of the same verifier as another, on the same batch in the same view.
fn is_at(ballots: &[Ballot], at: usize, ballot: Ballot) -> bool
    ensures { result ≡ is_at ballots.now at ballot }
{
    at < ballots.len() && is_alike(&ballots[at], &ballot)
}

/// Whether two votes are for the same: both to roll back, or both to commit with one token.
///
/// docs/MODEL.md, "Decided, rolled back".
pub fn is_same_choice(a: Choice<'_>, b: Choice<'_>) -> bool
    ensures { result ≡ same_choice (choice_of a.entry) (choice_of b.entry) }
{
    match a {
        Choice::ForRollback => matches!(b, Choice::ForRollback),
        Choice::ForCommit(token) => match b {
            Choice::ForRollback => false,
            Choice::ForCommit(other) => token == other,
        },
    }
}

/// What a verifier's only vote on the batch in this view is for, if it has one. The votes of this verifier and of those
/// after it begin at this place, which passes such a vote.
pub(crate) fn next_choice<'a>(
    trace: &Trace<'a>,
    ballots: &[Ballot],
    at: &mut usize,
    seq: u32,
    view: u32,
    verifier: u8,
) -> Option<Choice<'a>>
    requires cast { HasCast trace.now ballots.now }
    requires start { IsStart ballots.now at.old seq view verifier }
    ensures start { IsStart ballots.now at.new seq view (verifier + 1) }
    ensures only { (choice : ChoiceValue) → is_only choice (filter (is_vote_on seq view) (votes_of trace.now verifier))
        ≡ is_for choice (option_map choice_of result) }
{
    let wanted = Ballot {
        seq,
        view,
        verifier,
        place: 0,
    };
    if !is_at(ballots, *at, wanted) {
        return None;
    }
    let vote = vote_at(trace, ballots[*at]);
    *at += 1;
    Some(vote.choice())
}

/// How many verifiers have exactly one vote on the batch in this view, and it is for this. The votes on the batch in
/// this view begin at this place.
pub(crate) fn backers_from(
    trace: &Trace<'_>,
    ballots: &[Ballot],
    start: usize,
    seq: u32,
    view: u32,
    choice: Choice<'_>,
) -> u8
    requires cast { HasCast trace.now ballots.now }
    requires start { IsStart ballots.now start seq view 0 }
    ensures { result ≡ backers trace.now seq view (choice_of choice.entry) }
{
    trace.recall_limits();
    let mut at = start;
    let mut count: u8 = 0;
    for verifier in 0..trace.head().verifiers {
        if let Some(vote) = next_choice(trace, ballots, &mut at, seq, view, verifier) {
            if is_same_choice(vote, choice) {
                count += 1;
            }
        }
    }
    count
}

/// How many verifiers have exactly one vote on the batch in this view, and it is for this.
pub(crate) fn backers(
    trace: &Trace<'_>,
    ballots: &[Ballot],
    seq: u32,
    view: u32,
    choice: Choice<'_>,
) -> u8
    requires { HasCast trace.now ballots.now }
    ensures { result ≡ backers trace.now seq view (choice_of choice.entry) }
{
    backers_from(
        trace,
        ballots,
        start_of(ballots, seq, u64::from(view)),
        seq,
        view,
        choice,
    )
}
