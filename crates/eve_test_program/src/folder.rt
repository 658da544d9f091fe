//! Calls over files that lie in memory.

ghost use Rattle.std.specs.Prelude.{None, ⊤};

use crate::bytes::Bytes;
use crate::fault::Fault;
use crate::{arguments_of, file_of};
use eve_streams::failing::FailsAt;
use eve_streams::{Buffered, SinkOf, SourceOf};
use eve_tool::{Folder, OpenFault, serve_files};
use std::alloc::Global;
use std::fs::Files;
use std::random::RandomSource;
use std::sync::Wait;
use std::thread::Threads;

/// A file in memory.
#[derive(Drop)]
struct Book<'a> {
    name: &'a str,
    bytes: Vec<u8>,
}

/// Files in memory. One of the name `unread` fails where it is read; standard input has no bytes.
#[derive(Clone, Copy)]
struct Shelf<'a> {
    books: &'a [Book<'a>],
}

impl<'a> Folder for Shelf<'a> {
    type Input = FailsAt<SourceOf<&'a [u8]>>;

    ghost bytes = { λ _ _. None };

    ghost refuses = { λ _ _ _. ⊤ };

    fn open(&self, name: &str) -> Result<FailsAt<SourceOf<&'a [u8]>>, OpenFault> {
        match name {
            "-" => return Ok(FailsAt::new(SourceOf::new(&[]), 0)),
            "unread" => return Ok(FailsAt::new(SourceOf::new(&[]), 1)),
            "denied" => return Err(OpenFault::Denied),
            "folder" => return Err(OpenFault::IsFolder),
            "unknown" => return Err(OpenFault::Unknown),
            _ => {}
        }
        for book in self.books {
            if book.name == name {
                return Ok(FailsAt::new(SourceOf::new(book.bytes.as_slice()), 0));
            }
        }
        Err(OpenFault::Missing)
    }
}

/// The files of these words, where they are there.
fn books_of<'a, R: AllocGlobal + Files>(
    rt: &R,
    page: &mut Bytes,
    words: &[&'a str],
) -> Vec<Book<'a>> {
    let mut books = Vec::new(rt.alloc());
    for name in words {
        if let Ok(bytes) = file_of(rt, name, "") {
            if books.push(Book { name, bytes }).is_err() {
                page.fail(Fault::Memory);
            }
        }
    }
    books
}

/// Tells what came of a call over the files that its words name: its status, and what stands on out and on the error
/// stream.
pub(crate) fn tell_files<R: AllocGlobal + Files + RandomSource + Threads + Wait + Sync>(
    rt: &R,
    words: &str,
    page: &mut Bytes,
) {
    let arguments = arguments_of(rt.alloc(), page, &["eve"], words);
    let books = books_of(rt, page, arguments.as_slice());
    let shelf = Shelf {
        books: books.as_slice(),
    };
    tell_shelf(rt, arguments.as_slice(), &shelf, page);
}

/// Tells what came of a call over these files.
fn tell_shelf<R: AllocGlobal + RandomSource + Threads + Wait + Sync>(
    rt: &R,
    arguments: &[&str],
    shelf: &Shelf<'_>,
    page: &mut Bytes,
) {
    let mut err = SinkOf::new(Vec::new(rt.alloc()));
    let Ok(mut out) = Buffered::new(rt.alloc(), SinkOf::new(Vec::new(rt.alloc()))) else {
        return page.fail(Fault::Memory);
    };
    let status = serve_files(rt, arguments, shelf, &mut out, &mut err);
    page.number("  ", u64::from(status));
    page.words("\n");
    page.append(out.sink().writer().as_slice());
    page.append(err.writer().as_slice());
}
