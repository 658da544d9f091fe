//! What is kept of an attempt while it is open.

use eve_smallbank::Entry;
use std::marker::Model;

/// An attempt that is neither committed nor discarded. Contracts see the fields (`Opened`).
#[derive(Drop)]
pub(crate) struct OpenAttempt {
    pub(crate) view: u32,
    pub(crate) token: [u8; 32],
    // what its records wrote, in its certificate's order
    pub(crate) written: Vec<Entry>,
}

impl Model for OpenAttempt {
    ghost use Rattle.eve_attempts.specs.Ledgers.{Opened};

    ghost Value = { Opened };

    ghost view = { λ o. record { view = o.view; token = o.token; written = o.written.items } };
}
