//! Why the program ends early.

use std::alloc::AllocError;
use std::io;
use std::io::ErrorKind;

/// Why the program ends before its last line.
#[derive(Clone, Copy, Debug)]
pub(crate) enum Fault {
    /// The input, a file, the source of random words or the output fails.
    Io(ErrorKind),
    /// A line begins with no word of a trial, or names no limits.
    Word,
    /// A run that is made here fails, or what is made of it has no spelling.
    Run,
    /// A trace that is made here lacks a frame that is looked for.
    Frame,
    /// Memory ran out.
    Memory,
}

impl From<io::Error> for Fault {
    fn from(why: io::Error) -> Fault {
        Fault::Io(why.kind())
    }
}

impl From<AllocError> for Fault {
    fn from(_why: AllocError) -> Fault {
        Fault::Memory
    }
}
