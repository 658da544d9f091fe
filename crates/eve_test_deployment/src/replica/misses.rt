//! What of a case isn't as it is due.

use std::io;

/// The first thing of a case that isn't as it is due, if there is one; where a call couldn't answer, why.
#[derive(Clone, Copy)]
pub struct Misses {
    first: Option<&'static str>,
    stop: Option<io::Error>,
}

impl Misses {
    /// Nothing is missed yet.
    pub fn none() -> Misses {
        Misses {
            first: None,
            stop: None,
        }
    }

    /// Keeps what it is that has to hold, where it doesn't.
    pub fn want(&mut self, holds: bool, what: &'static str) {
        if !holds && self.first.is_none() {
            self.first = Some(what);
        }
    }

    /// The same of what a call answers. A case in which one couldn't answer is stopped.
    pub fn want_answer(&mut self, answer: io::Result<bool>, what: &'static str) {
        match answer {
            Ok(holds) => self.want(holds, what),
            Err(why) => self.stop(why),
        }
    }

    /// The case can't go on, and nothing that is missed from now on counts.
    pub fn stop(&mut self, why: io::Error) {
        if self.stop.is_none() {
            self.stop = Some(why);
        }
    }

    /// What was missed first, where every call has answered.
    pub fn first(self) -> io::Result<Option<&'static str>> {
        match self.stop {
            Some(why) => Err(why),
            None => Ok(self.first),
        }
    }
}
