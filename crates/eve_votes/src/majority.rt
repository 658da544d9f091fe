//! The token that most of the verifiers vote for.

ghost use Rattle.std.specs.Prelude.{◌≡◌, ◌<◌, ◌+◌, ◌↔◌, ℕ, List, Some, length, nat_le};
ghost use Rattle.std.specs.Option.{option_map};
ghost use Rattle.eve_grammar.specs.Trace.{ForCommit};
ghost use Rattle.eve_votes.specs.Votes.{backers, IsDecided};
ghost use Rattle.eve_votes.specs.Ballots.{IsStart, HasCast};
ghost use Rattle.eve_votes.specs.inner.Majority.{HasLead, IsOneMore};

use crate::ballots::{Ballot, backers_from, next_choice};
use eve_grammar::Choice;
use eve_views::Trace;

/// The one token that may have more than half of the votes, and by how many.
#[derive(Clone, Copy)]
pub(crate) struct Lead<'a> {
    pub token: &'a [u8],
    pub by: u8,
}

/// Counts a vote: one more for the token that leads, one less for another; another takes a lead of none.
fn counted<'a>(lead: Lead<'a>, token: &'a [u8]) -> Lead<'a>
    requires { lead.by < 255 }
    ensures { (before after : List ℕ → ℕ) (voters : ℕ) → HasLead before voters lead.entry
        → IsOneMore before after token.now → HasLead after (voters + 1) result }
{
    if lead.token == token {
        return Lead {
            token,
            by: lead.by + 1,
        };
    }
    if lead.by == 0 {
        return Lead { token, by: 1 };
    }
    Lead {
        token: lead.token,
        by: lead.by - 1,
    }
}

/// The token that leads in a view of a batch, whose votes begin at this place. Each vote is looked at once.
fn leader<'a>(trace: &Trace<'a>, ballots: &[Ballot], start: usize, seq: u32, view: u32) -> Lead<'a>
    requires cast { HasCast trace.now ballots.now }
    requires start { IsStart ballots.now start seq view 0 }
    ensures { HasLead (λ token. backers trace.now seq view (ForCommit token)) (length trace.now.verifiers) result }
{
    trace.recall_limits();
    let mut at = start;
    let mut lead = Lead { token: &[], by: 0 };
    for verifier in 0..trace.head().verifiers {
        match next_choice(trace, ballots, &mut at, seq, view, verifier) {
            Some(Choice::ForCommit(token)) => lead = counted(lead, token),
            Some(Choice::ForRollback) => {}
            None => {}
        }
    }
    lead
}

/// Whether this number of votes is a quorum.
pub(crate) fn is_quorum(trace: &Trace<'_>, votes: u8) -> bool
    ensures { result ≡ nat_le trace.now.head.quorum votes }
{
    trace.recall_limits();
    trace.head().quorum <= votes
}

/// The token for which a batch is decided as commit in a view. The votes on them begin at this place.
pub(crate) fn decided_in<'a>(
    trace: &Trace<'a>,
    ballots: &[Ballot],
    start: usize,
    seq: u32,
    view: u32,
) -> Option<&'a [u8]>
    requires cast { HasCast trace.now ballots.now }
    requires start { IsStart ballots.now start seq view 0 }
    ensures { (token : List ℕ) → IsDecided trace.now seq view token ↔ (option_map (λ r. r.now) result ≡ Some token) }
{
    trace.recall_limits();
    let lead = leader(trace, ballots, start, seq, view);
    if lead.by == 0 {
        return None;
    }
    let votes = backers_from(
        trace,
        ballots,
        start,
        seq,
        view,
        Choice::ForCommit(lead.token),
    );
    if is_quorum(trace, votes) {
        Some(lead.token)
    } else {
        None
    }
}
