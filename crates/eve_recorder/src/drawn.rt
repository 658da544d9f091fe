//! What a seat knows of the counter, and the rule over the counter and all seats.

use atomic_table::{Join, Play, Seat, Split, Table, TableRule};
use std::alloc::Global;
use std::collections::LinkedList;

/// A seat's parts of the right to know all numbers, and the numbers that it drew. It is spoken of in proofs alone: no
/// value of it is made.
pub struct Drawn {
    pub parts: u64,
    pub numbers: LinkedList<u64>,
}

/// The rule: each number below the counter was drawn once, at one of the seats.
pub struct EachNumberOnce;

impl TableRule<u8, Drawn, ()> for EachNumberOnce {
    ghost use Rattle.std.specs.Prelude.{[]};
    ghost use Rattle.eve_recorder.specs.CounterRule.{IsDealt, all_parts, drawn};

    ghost holds = { λ _ s. IsDealt s };

    ghost first = { λ _. drawn all_parts [] };
}

/// A draw: the seat gains the counter's number, and the counter goes on.
pub struct Draw;

impl Play<u8, Drawn> for Draw {
    ghost use Rattle.eve_recorder.specs.CounterRule.{Draws};

    ghost then = { Draws };
}

/// One part of the right, without numbers, is cut off a seat; a seat that is joined to another leaves it all it has.
pub struct OnePart;

impl Split<Drawn> for OnePart {
    ghost use Rattle.eve_recorder.specs.CounterRule.{fewer, one_part};

    ghost left = { fewer };

    ghost right = { one_part };
}

impl Join<Drawn> for OnePart {
    ghost use Rattle.eve_recorder.specs.CounterRule.{drawn_by_both, spent};

    ghost both = { drawn_by_both };

    ghost spent = { spent };
}

/// The counter of drawn numbers.
pub type Counter = Table<u8, Drawn, (), EachNumberOnce, Global>;

/// A seat at the counter.
pub type CounterSeat = Seat<u8, Drawn>;
