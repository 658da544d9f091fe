//! Random words.

ghost use Rattle.std.specs.Prelude.{◌≡◌, IfErr};

use crate::fault::ToolFault;
use std::hash::RandomState;
use std::random::RandomSource;

/// Random words of the system, with which names are hashed.
pub(crate) fn random_words<R: RandomSource>(rt: &R) -> Result<RandomState, ToolFault>
    ensures { IfErr result (λ e. e ≡ ToolFault.Random) }
{
    match RandomState::new(rt) {
        Ok(random) => Ok(random),
        Err(_) => Err(ToolFault::Random),
    }
}
