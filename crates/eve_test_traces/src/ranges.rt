//! What is said of many numbers, in few lines.

use crate::texts::Missing;
use eve_testing::Text;
use std::alloc::Global;

/// A text with a line for each range of numbers, which rise, of which the same is said.
#[derive(Drop)]
pub struct Ranges {
    text: Text,
    /// The range that isn't written yet, and what is said of it; nothing where there is none.
    from: usize,
    to: usize,
    line: Text,
}

impl Ranges {
    pub fn new(alloc: Global) -> Ranges {
        Ranges {
            text: Text::new(alloc),
            from: 0,
            to: 0,
            line: Text::new(alloc),
        }
    }

    /// Ends the range, and adds words.
    pub fn head(&mut self, words: &str) {
        self.end();
        self.line.clear();
        self.text.words(words);
    }

    /// Keeps why something can't be said.
    pub fn miss(&mut self, why: Missing) {
        self.text.fail(why.error());
    }

    /// Says something of the next number.
    pub fn say(&mut self, number: usize, line: &Text) {
        self.text.fail_as(line);
        if self.line.as_str() != line.as_str() {
            self.end();
            self.from = number;
            self.line.clear();
            self.line.words(line.as_str());
        }
        self.to = number;
    }

    fn end(&mut self) {
        if self.line.as_str().is_empty() {
            return;
        }
        let (from, to) = (self.from as u64, self.to as u64);
        self.text.value("\n  ", from);
        self.text.value(" to ", to);
        self.text.words(": ");
        self.text.words(self.line.as_str());
    }

    /// Adds all of it to a text.
    pub fn push_all(&mut self, text: &mut Text) {
        self.end();
        text.fail_as(&self.line);
        text.fail_as(&self.text);
        text.words(self.text.as_str());
    }
}
