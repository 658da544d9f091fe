//! The body of a Customer frame.

ghost use Rattle.std.specs.Prelude.{◌≡◌, is_some};
ghost use Rattle.eve_grammar.specs.Readers.{customer_of};

use crate::fields::{balance_at, name_at, saving_at};

/// Whether these bytes are the body of a Customer frame, and no more.
///
/// docs/TRACE.md, "Frames".
#[tactic(auto, unfolding(crate::specs::Readers::customer_of))]
pub fn is_customer_body(body: &[u8]) -> bool
    ensures { result ≡ is_some (customer_of body.now) }
{
    let Some((_name, rest)) = name_at(body) else {
        return false;
    };
    let Some((_saving, rest)) = saving_at(rest) else {
        return false;
    };
    let Some((_checking, rest)) = balance_at(rest) else {
        return false;
    };
    rest.is_empty()
}
