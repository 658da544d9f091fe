//! Bytes that are written piece by piece.

use crate::fault::Fault;
use std::alloc::Global;
use std::io::Write;

/// Bytes that are written piece by piece, and what failed first on the way: memory for a piece, or what their writer
/// says. `print` prints the bytes, or tells that.
#[derive(Drop)]
pub(crate) struct Bytes {
    written: Vec<u8>,
    failed: Option<Fault>,
}

impl Bytes {
    /// No bytes so far.
    pub(crate) fn none(alloc: Global) -> Bytes {
        Bytes {
            written: Vec::new(alloc),
            failed: None,
        }
    }

    /// Appends these.
    pub(crate) fn append(&mut self, more: &[u8]) {
        if self.written.extend_from_slice(more).is_err() {
            self.fail(Fault::Memory);
        }
    }

    /// Appends words.
    pub(crate) fn words(&mut self, words: &str) {
        self.append(words.as_bytes());
    }

    /// Appends a number, behind its words.
    pub(crate) fn number(&mut self, words: &str, number: u64) {
        if write!(self.written, "{words}{number}").is_err() {
            self.fail(Fault::Memory);
        }
    }

    /// Changes the last bit of a byte, if there is one; twice, and all is as it was.
    pub(crate) fn flip(&mut self, at: usize) {
        if let Some(byte) = self.written.get_mut(at) {
            *byte ^= 1;
        }
    }

    /// Notes what failed, if nothing did before.
    pub(crate) fn fail(&mut self, fault: Fault) {
        if self.failed.is_none() {
            self.failed = Some(fault);
        }
    }

    /// Notes what failed where other bytes were written.
    pub(crate) fn fail_as(&mut self, other: &Bytes) {
        if let Some(fault) = other.failed {
            self.fail(fault);
        }
    }

    /// What was written so far.
    pub(crate) fn written(&self) -> &[u8] {
        self.written.as_slice()
    }

    /// Prints all that was written.
    pub(crate) fn print<R: Print>(&self, rt: &R) -> Result<(), Fault> {
        match self.failed {
            None => Ok(rt.write_all(self.written())?),
            Some(fault) => Err(fault),
        }
    }
}
