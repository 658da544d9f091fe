//! Who voted for what, verifier by verifier.

ghost use Rattle.std.specs.Prelude.{◌≡◌, ◌<◌, ◌≤◌, ℕ, List, Some, length, filter, if◌then◌else◌};
ghost use Rattle.eve_grammar.specs.Trace.{ForCommit};
ghost use Rattle.eve_grammar.specs.Bodies.{borrowed_choice as choice_of};
ghost use Rattle.eve_grammar.specs.Spelling.{votes_at, votes_of};
ghost use Rattle.eve_votes.specs.Votes.{backers, is_only, is_vote_on};
ghost use Rattle.eve_evidence_outcomes.specs.Polls.{AreToldChoices, AreToldVotes, votes_on, only_commit, IsSomeCount};
ghost use Rattle.eve_evidence_outcomes.specs.Polls.{IsMost};

use crate::votes::{only_commit, told_choice, told_vote};
use eve_evidence::{VERIFIERS, VerifierChoice, VerifierVote};
use eve_grammar::Choice;
use eve_views::Trace;

/// What each verifier did about a choice on the batch in the view.
pub(crate) fn told_votes(
    trace: &Trace<'_>,
    n: u32,
    view: u32,
    choice: Choice<'_>,
) -> [VerifierVote; VERIFIERS]
    ensures { AreToldVotes trace.now n view (choice_of choice.entry) result }
{
    trace.recall_limits();
    let mut told = [VerifierVote::NoVote; VERIFIERS];
    for v in 0..trace.verifier_count() {
        told[v as usize] = told_vote(&trace.votes(v), n, view, choice);
    }
    told
}

/// What each verifier said first on the batch in the view.
pub(crate) fn told_choices<'a>(
    trace: &Trace<'a>,
    n: u32,
    view: u32,
) -> [VerifierChoice<'a>; VERIFIERS]
    ensures { AreToldChoices trace.now n view result }
{
    trace.recall_limits();
    let mut told = [VerifierChoice::NoVote; VERIFIERS];
    for v in 0..trace.verifier_count() {
        told[v as usize] = told_choice(&trace.votes(v), n, view);
    }
    told
}

/// 1 where a verifier has exactly one vote on the batch in the view, and it is for this, else 0.
fn backing(trace: &Trace<'_>, v: u8, n: u32, view: u32, choice: Choice<'_>) -> u8
    requires { v < length trace.now.verifiers }
    ensures is { result ≡ if is_only (choice_of choice.entry) (filter (is_vote_on n view) (votes_of trace.now v))
        then 1 else 0 }
    ensures few { result ≤ 1 }
{
    let votes = trace.votes(v);
    match told_vote(&votes, n, view, choice) {
        VerifierVote::For(_) => 1,
        VerifierVote::Otherwise(_) => 0,
        VerifierVote::NoVote => 0,
    }
}

/// How many verifiers have exactly one vote on the batch in the view, and it is for this.
pub(crate) fn count_backers(trace: &Trace<'_>, n: u32, view: u32, choice: Choice<'_>) -> u8
    ensures { result ≡ backers trace.now n view (choice_of choice.entry) }
{
    let mut count: u8 = 0;
    for v in 0..trace.verifier_count() {
        let one = backing(trace, v, n, view, choice);
        count += one;
    }
    count
}

/// How many verifiers are for the commit that a verifier is for by its only vote on the batch in the view, 0 if it is
/// for none.
fn with_verifier(trace: &Trace<'_>, v: u8, n: u32, view: u32) -> u8
    requires { v < length trace.now.verifiers }
    ensures reached { IsSomeCount trace.now n view result }
    ensures own { (token : List ℕ) → only_commit (votes_on n view (votes_at trace.now v)) ≡ Some token
        → backers trace.now n view (ForCommit token) ≤ result }
{
    let votes = trace.votes(v);
    match only_commit(&votes, n, view) {
        Some(token) => count_backers(trace, n, view, Choice::ForCommit(token)),
        None => 0,
    }
}

/// The most verifiers that are for the commit of the batch in the view with one token.
pub(crate) fn most_backers(trace: &Trace<'_>, n: u32, view: u32) -> u8
    ensures { IsMost trace.now n view result }
{
    let mut most: u8 = 0;
    for v in 0..trace.verifier_count() {
        let count = with_verifier(trace, v, n, view);
        most = most.max(count);
    }
    most
}
