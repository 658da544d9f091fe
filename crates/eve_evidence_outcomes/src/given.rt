//! The attempt that gave a reply which its replica didn't commit.

ghost use Rattle.std.specs.Prelude.{◌<◌, IfSome, IfNone, length};
ghost use Rattle.eve_evidence.specs.declared.evidence.GivenBy.{GivenBy as GivenByValue};
ghost use Rattle.eve_evidence_outcomes.specs.Given.{GaveReply, TellsGiven};

use crate::sent::has_reply;
use eve_evidence::GivenBy;
use eve_history::{Fate, History};
use eve_smallbank::Reply;

/// An attempt, by its number, if it is of the batch, has the reply to the request of the index, and wasn't committed.
fn gives(history: &History<'_>, i: usize, seq: u32, index: u16, reply: Reply) -> Option<GivenBy>
    requires attempt { i < length history.now.attempts }
    requires fate { i < length history.now.fates }
    ensures given { IfSome result (GaveReply history.now seq index reply i) }
    ensures none { IfNone result ((g : GivenByValue) → ¬ GaveReply history.now seq index reply i g) }
{
    let attempt = history.attempt(i);
    if attempt.seq() != seq {
        return None;
    }
    if !has_reply(&attempt, index, reply) {
        return None;
    }
    let at = attempt.offset();
    match history.fate(i) {
        Fate::Committed => None,
        Fate::Discarded => Some(GivenBy { at, open: false }),
        Fate::Open => Some(GivenBy { at, open: true }),
    }
}

/// The first attempt of a replica that is of the batch, has the reply to the request of the index, and wasn't
/// committed.
pub(crate) fn given_by(history: &History<'_>, seq: u32, index: u16, reply: Reply) -> Option<GivenBy>
    ensures { TellsGiven history.now seq index reply result }
{
    for i in 0..history.attempts() {
        if let Some(given) = gives(history, i, seq, index, reply) {
            return Some(given);
        }
    }
    None
}
