//! Laws about the definitions. Each body is empty: the contract is the law.

ghost use Rattle.std.specs.Prelude.{ℕ, List};
ghost use Rattle.eve_grammar.specs.Trace.{Trace};
ghost use Rattle.eve_grammar.specs.Limits.{HasLimits};
ghost use Rattle.eve_views.specs.Form.{HasNone, IsFaultOutside};
ghost use Rattle.eve_votes.specs.Votes.{IsDecided};
ghost use Rattle.eve_votes.specs.Faults.{AreVotesSound, StandsInVotes};
ghost use Rattle.eve_votes.specs.inner.VotedFor.{IsVotedFor};

/// Where no fault of votes stands, the votes are sound: each verifier votes at most once on a batch in a view, and a
/// batch is decided in one view, with one token.
///
/// docs/MODEL.md, "Faults".
pub fn votes_without_faults_are_sound()
    ensures { (t : Trace) → HasLimits t → HasNone (IsFaultOutside StandsInVotes t) → AreVotesSound t }
{}

/// A commit that is decided has a vote for it.
///
/// docs/MODEL.md, "Decided, rolled back".
pub fn decided_commits_have_a_vote()
    ensures { (t : Trace) (n view : ℕ) (token : List ℕ) → HasLimits t → IsDecided t n view token
        → IsVotedFor t n view token }
{}
