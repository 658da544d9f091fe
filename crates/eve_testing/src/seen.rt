//! What of a case was looked at.

use crate::Text;
use std::alloc::AllocError;
use std::io;
use std::io::Error;

/// How many things of a case were looked at, the first of them that wasn't as it is due, if there is one, and why one
/// couldn't be looked at, if one couldn't.
#[derive(Clone, Copy)]
pub struct Seen {
    count: u32,
    wrong: Option<&'static str>,
    failed: Option<Error>,
}

impl Seen {
    /// Nothing was looked at yet.
    pub fn nothing() -> Seen {
        Seen {
            count: 0,
            wrong: None,
            failed: None,
        }
    }

    /// Looks at one more thing: what has to hold, and whether it does.
    pub fn want(&mut self, holds: bool, what: &'static str) {
        self.count = self.count.wrapping_add(1);
        if !holds && self.wrong.is_none() {
            self.wrong = Some(what);
        }
    }

    /// The same of what a call answers.
    pub fn want_answer(&mut self, answer: io::Result<bool>, what: &'static str) {
        match answer {
            Ok(holds) => self.want(holds, what),
            Err(why) => self.fail(why),
        }
    }

    /// Keeps why a thing can't be looked at, if nothing failed before.
    pub fn fail(&mut self, why: Error) {
        if self.failed.is_none() {
            self.failed = Some(why);
        }
    }

    /// Keeps whether there was memory for something.
    pub fn needs(&mut self, is_there: bool) {
        if !is_there {
            self.fail(AllocError.into());
        }
    }

    /// How many things were looked at.
    pub fn count(&self) -> u32 {
        self.count
    }

    /// Tells the first thing that wasn't as it is due, and keeps what failed; false where all was as it is due.
    pub fn tell_wrong(&self, said: &mut Text) -> bool {
        if let Some(why) = self.failed {
            said.fail(why);
        }
        match self.wrong {
            Some(what) => {
                said.words("wanted: ");
                said.words(what);
                true
            }
            None => false,
        }
    }
}
