//! A text that keeps what failed.

use std::alloc::{AllocError, Global};
use std::fmt::{Debug, Display};
use std::io;
use std::io::{Error, ErrorKind, Write};

/// A text that is written piece by piece, and what failed first on the way. Writing goes on without what failed; such a
/// text can't be taken or printed, and the error says why.
#[derive(Drop)]
pub struct Text {
    text: String,
    failed: Option<Error>,
}

impl Text {
    /// An empty text.
    pub fn new(alloc: Global) -> Text {
        Text {
            text: String::new(alloc),
            failed: None,
        }
    }

    /// Keeps what failed, if nothing did before.
    pub fn fail(&mut self, why: Error) {
        if self.failed.is_none() {
            self.failed = Some(why);
        }
    }

    /// Keeps what failed while another text was written.
    pub fn fail_as(&mut self, other: &Text) {
        if let Some(why) = other.failed {
            self.fail(why);
        }
    }

    /// Keeps that memory was refused.
    pub fn refused(&mut self) {
        self.fail(AllocError.into());
    }

    /// Keeps whether memory was refused for what had to be stored.
    pub fn stored<T: Drop, E: Drop>(&mut self, stored: Result<T, E>) {
        if stored.is_err() {
            self.refused();
        }
    }

    /// What was made; None where memory was refused for it.
    pub fn made<T: Drop>(&mut self, made: Result<T, AllocError>) -> Option<T> {
        if made.is_err() {
            self.refused();
        }
        made.ok()
    }

    /// Keeps whether what is read is as it must be.
    pub fn needs(&mut self, holds: bool) {
        if !holds {
            self.fail(ErrorKind::InvalidData.into());
        }
    }

    /// Writes these words.
    pub fn words(&mut self, words: &str) {
        let written = self.text.push_str(words);
        self.stored(written);
    }

    /// Writes a value, behind its words.
    pub fn value<D: Display + Drop>(&mut self, words: &str, value: D) {
        self.words(words);
        let written = self.text.write(value);
        self.stored(written);
    }

    /// Writes an answer as Rust's Debug has it, behind its words.
    pub fn answer<D: Debug + Drop>(&mut self, words: &str, answer: D) {
        self.words(words);
        let written = write!(self.text, "{answer:?}");
        self.stored(written);
    }

    /// Writes bytes in hexadecimal, behind their words.
    pub fn hex(&mut self, words: &str, bytes: &[u8]) {
        self.words(words);
        for byte in bytes {
            let written = write!(self.text, "{byte:02x}");
            self.stored(written);
        }
    }

    /// Writes bytes as the characters that they are in ASCII or Latin-1, behind their words.
    pub fn bytes(&mut self, words: &str, bytes: &[u8]) {
        self.words(words);
        for byte in bytes {
            let written = self.text.push(char::from(*byte));
            self.stored(written);
        }
    }

    /// Takes away what was written.
    pub fn clear(&mut self) {
        self.text.clear();
    }

    /// What was written so far.
    pub fn as_str(&self) -> &str {
        self.text.as_str()
    }

    /// Whether nothing failed.
    pub fn is_whole(&self) -> bool {
        self.failed.is_none()
    }

    /// Prints the text, if nothing failed.
    pub fn print<R: Print>(&self, rt: &R) -> io::Result<()> {
        match self.failed {
            None => io::writer(rt).write_all(self.text.as_bytes()),
            Some(why) => Err(why),
        }
    }
}
