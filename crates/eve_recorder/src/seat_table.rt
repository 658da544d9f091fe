//! Eight places for seats, each with a name.

ghost use Rattle.std.specs.Prelude.{◌≡◌, ◌<◌, ◌↔◌, IsTrue, IsSome, None, Some, slice_set, slice_index_or};
ghost use Rattle.eve_recorder.specs.SeatTables.{seats_in_table, HasBelow};

use crate::limits::MOST_SEATS;

/// What lies at each place, from 0.
#[derive(Drop)]
pub struct SeatTable<T> {
    pub s0: Option<T>,
    pub s1: Option<T>,
    pub s2: Option<T>,
    pub s3: Option<T>,
    pub s4: Option<T>,
    pub s5: Option<T>,
    pub s6: Option<T>,
    pub s7: Option<T>,
}

impl<T: Drop> SeatTable<T> {
    /// Takes out what lies at the place.
    pub fn take(&mut self, place: u8) -> Option<T>
        ensures out { result ≡ slice_index_or (seats_in_table self.old) place None }
        ensures rest { seats_in_table self.new ≡ slice_set (seats_in_table self.old) place None }
    {
        match place {
            0 => self.s0.take(),
            1 => self.s1.take(),
            2 => self.s2.take(),
            3 => self.s3.take(),
            4 => self.s4.take(),
            5 => self.s5.take(),
            6 => self.s6.take(),
            7 => self.s7.take(),
            _ => None,
        }
    }

    /// Puts a seat at the place.
    pub fn put(&mut self, place: u8, seat: T)
        requires { place < MOST_SEATS }
        ensures { seats_in_table self.new ≡ slice_set (seats_in_table self.old) place (Some seat) }
    {
        match place {
            0 => self.s0 = Some(seat),
            1 => self.s1 = Some(seat),
            2 => self.s2 = Some(seat),
            3 => self.s3 = Some(seat),
            4 => self.s4 = Some(seat),
            5 => self.s5 = Some(seat),
            6 => self.s6 = Some(seat),
            7 => self.s7 = Some(seat),
            _ => unreachable!(),
        }
    }

    /// Whether a seat lies at each of the first `count` places.
    pub fn has_below(&self, count: u8) -> bool
        ensures { IsTrue result ↔ HasBelow count (seats_in_table self.now) }
    {
        for place in 0..count {
            if !self.has(place) {
                return false;
            }
        }
        true
    }

    fn has(&self, place: u8) -> bool
        ensures { IsTrue result ↔ IsSome (slice_index_or (seats_in_table self.now) place None) }
    {
        match place {
            0 => self.s0.is_some(),
            1 => self.s1.is_some(),
            2 => self.s2.is_some(),
            3 => self.s3.is_some(),
            4 => self.s4.is_some(),
            5 => self.s5.is_some(),
            6 => self.s6.is_some(),
            7 => self.s7.is_some(),
            _ => false,
        }
    }
}
