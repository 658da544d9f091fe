//! Whether a body is right where its frame stands.

ghost use Rattle.std.specs.Prelude.{◌≡◌, ◌≢◌, ◌≤◌, is_some};
ghost use Rattle.std.specs.Option.{option_map};
ghost use Rattle.eve_grammar.specs.Kinds.{kind_byte};
ghost use Rattle.eve_grammar.specs.Readers.{body_of};
ghost use Rattle.eve_grammar.specs.declared.frame_kind.FrameKind.TheVariants.{Attempt};
ghost use Rattle.eve_views.specs.inner.Places.{accesses_in};

use crate::reached::Reached;
use eve_grammar::{
    FrameKind, MOST_CUSTOMERS, batch_number, certificate_len, is_access_body, is_commit_body,
    is_customer_body, is_rollback_body, is_sent_body, is_transfer_body, is_vote_body, number_of,
};

/// Whether the body is right for a frame of this kind, other than an attempt, that stands here.
#[tactic(auto, unfolding(eve_grammar::specs::Readers::body_of))]
fn is_body(at: &Reached, kind: FrameKind, body: &[u8]) -> bool
    requires kind { kind ≢ Attempt }
    requires customers { at.now.head.customers ≤ MOST_CUSTOMERS }
    ensures { result ≡ is_some (body_of at.now.head at.now.place (kind_byte kind) body.now) }
{
    let rows = 2 * at.head.customers;
    match kind {
        FrameKind::Customer => is_customer_body(body),
        FrameKind::Batch => match batch_number(body) {
            Some(number) => number.checked_sub(1) == Some(at.place.batches),
            None => false,
        },
        FrameKind::Replica => number_of(body) == Some(at.place.replicas),
        FrameKind::Access => is_access_body(rows, body),
        FrameKind::Commit => is_commit_body(body),
        FrameKind::Rollback => is_rollback_body(rows, body),
        FrameKind::Transfer => is_transfer_body(rows, body),
        FrameKind::Verifier => number_of(body) == Some(at.place.verifiers),
        FrameKind::Vote => is_vote_body(at.head.batches, body),
        FrameKind::Sent => is_sent_body(at.head.replicas, at.head.batches, body),
        FrameKind::End => body.is_empty(),
        FrameKind::Attempt => false,
    }
}

/// How many access frames have to follow a frame of this kind that stands here; `None` where its body is wrong.
#[tactic(auto, unfolding(eve_grammar::specs::Readers::body_of))]
pub fn accesses_behind(at: &Reached, kind: FrameKind, body: &[u8]) -> Option<usize>
    requires customers { at.now.head.customers ≤ MOST_CUSTOMERS }
    ensures { result ≡ option_map accesses_in (body_of at.now.head at.now.place (kind_byte kind) body.now) }
{
    match kind {
        FrameKind::Attempt => match certificate_len(body) {
            Some(len) => Some(len as usize),
            None => None,
        },
        _ => {
            if is_body(at, kind, body) {
                Some(0)
            } else {
                None
            }
        }
    }
}
