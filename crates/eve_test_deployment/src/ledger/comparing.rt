//! What a ledger answered, beside the frames of a trace; and the ledger, beside what it was.

ghost use Rattle.std.specs.Prelude.{IsTrue};
ghost use Rattle.eve_grammar.specs.Limits.{is_attempt, is_batch};
ghost use Rattle.eve_write.specs.Data.{attempt as plain, batch as plain_batch};

use crate::ledger::framed::Framed;
use eve_accounts::Balances;
use eve_attempts::Ledger;
use eve_frames::{AttemptView, BatchView};
use eve_grammar::MOST_WINDOW;
use eve_streams::SinkOf;
use eve_testing::Text;
use eve_write::{AttemptData, BatchData, write_accesses, write_attempt, write_batch};
use std::alloc::{AllocError, Global};

/// Whether the batch is the one of the frame.
pub fn is_batch_of(
    alloc: Global,
    number: u32,
    batch: &BatchData,
    frame: &BatchView,
    said: &mut Text,
) -> bool
    requires { IsTrue (is_batch (plain_batch batch.now)) }
{
    let mut out = SinkOf::new(Vec::new(alloc));
    said.stored(write_batch(&mut out, number, batch));
    out.writer().as_slice() == frame.bytes()
}

/// Whether the attempt is the one of the frames.
pub fn is_attempt_of(alloc: Global, attempt: &AttemptData, framed: Framed, said: &mut Text) -> bool
    requires { IsTrue (is_attempt (plain attempt.now)) }
{
    let mut out = SinkOf::new(Vec::new(alloc));
    said.stored(write_attempt(&mut out, attempt));
    said.stored(write_accesses(&mut out, &attempt.accesses));
    are_frames(out.writer().as_slice(), framed)
}

/// Whether the bytes are those of an attempt's frame and of its access frames.
fn are_frames(bytes: &[u8], framed: Framed) -> bool {
    let Some(mut rest) = bytes.strip_prefix(framed.attempt.bytes()) else {
        return false;
    };
    for place in 0..framed.accesses.len() {
        let Some(behind) = rest.strip_prefix(framed.accesses.get(place).bytes()) else {
            return false;
        };
        rest = behind;
    }
    rest.is_empty()
}

/// Whether the attempt has the token of the frame.
pub fn has_token_of(attempt: &AttemptData, frame: &AttemptView) -> bool {
    attempt.token.as_slice() == frame.token()
}

/// The tokens of all open attempts in their order, and zeros up to the greatest window.
type Tokens = [[u8; 32]; MOST_WINDOW as usize];

/// All that a ledger shows.
#[derive(Drop)]
pub struct Shown {
    view: u32,
    committed: u32,
    is_next_serial: bool,
    opened: usize,
    tokens: Tokens,
    balances: Balances,
}

impl Shown {
    /// What the ledger shows now.
    pub fn of(alloc: Global, ledger: &Ledger) -> Result<Shown, AllocError> {
        Ok(Shown {
            view: ledger.view(),
            committed: ledger.committed(),
            is_next_serial: ledger.is_next_serial(),
            opened: ledger.opened(),
            tokens: tokens_of(ledger),
            balances: ledger.balances().copy(alloc)?,
        })
    }

    /// Whether the ledger still shows the same.
    pub fn is_of(&self, ledger: &Ledger) -> bool {
        self.view == ledger.view()
            && self.committed == ledger.committed()
            && self.is_next_serial == ledger.is_next_serial()
            && self.opened == ledger.opened()
            && self.tokens == tokens_of(ledger)
            && self.balances.as_slice() == ledger.balances().as_slice()
    }
}

fn tokens_of(ledger: &Ledger) -> Tokens {
    let mut tokens = [[0; 32]; MOST_WINDOW as usize];
    for place in 0..ledger.opened().min(MOST_WINDOW as usize) {
        tokens[place] = ledger.token(place);
    }
    tokens
}
