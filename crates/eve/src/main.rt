//! The program `eve`: `serve_files` over the arguments, the files and the streams of the process.
#![tactic(auto)]

ghost use Rattle.std.specs.Prelude.{None, ⊤};

use either::Either;
use eve_streams::{Buffered, Sink, SinkOf, SourceOf, send_all};
use eve_tool::{Folder, OpenFault, ToolFault, serve_files, stop};
use std::fs::{File, OpenFile};
use std::io::{ErrorKind, Stdin};
use std::process::ExitCode;
use std::{env, io};

/// What is said of arguments of which one is no text.
const NOT_TEXT: &str = "eve: arguments have to be UTF-8\n";

/// This machine, with its files.
#[derive(Drop)]
struct Machine {
    runtime: HostRuntime,
}

impl Machine {
    /// Opens a file that is no folder.
    fn open_file(&self, name: &str) -> io::Result<File> {
        let file = File::open(&self.runtime, name)?;
        if file.metadata()?.is_dir() {
            return Err(io::Error::from(ErrorKind::IsADirectory));
        }
        Ok(file)
    }
}

impl Folder for Machine {
    type Input = SourceOf<Either<File, Stdin>>;

    // What a file holds no contract says, and not why it is refused.
    ghost bytes = { λ _ _. None };

    ghost refuses = { λ _ _ _. ⊤ };

    fn open(&self, name: &str) -> Result<SourceOf<Either<File, Stdin>>, OpenFault> {
        if name == "-" {
            return Ok(SourceOf::new(Either::Right(self.runtime.stdin())));
        }
        match self.open_file(name) {
            Ok(file) => Ok(SourceOf::new(Either::Left(file))),
            Err(e) => Err(match e.kind() {
                ErrorKind::NotFound => OpenFault::Missing,
                ErrorKind::PermissionDenied => OpenFault::Denied,
                ErrorKind::IsADirectory => OpenFault::IsFolder,
                _ => OpenFault::Unknown,
            }),
        }
    }
}

/// The arguments.
fn arguments_of(rt: &HostRuntime) -> io::Result<Vec<String>> {
    Ok(env::args(rt)?.collect(rt.alloc())?)
}

/// Says why there are no arguments, and returns the exit status.
fn refuse<E: Sink>(why: ErrorKind, err: &mut E) -> u8 {
    if why == ErrorKind::OutOfMemory {
        return stop(ToolFault::Memory, err);
    }
    let _ = send_all(err, NOT_TEXT.as_bytes());
    2
}

fn main(rt: HostRuntime) -> ExitCode {
    let machine = Machine { runtime: rt };
    let rt = &machine.runtime;
    let mut err = SinkOf::new(rt.stderr());
    let Ok(mut out) = Buffered::new(rt.alloc(), SinkOf::new(rt.stdout())) else {
        return ExitCode::from(stop(ToolFault::Memory, &mut err));
    };
    ExitCode::from(match arguments_of(rt) {
        Ok(arguments) => serve_files(rt, arguments.as_slice(), &machine, &mut out, &mut err),
        Err(e) => refuse(e.kind(), &mut err),
    })
}
