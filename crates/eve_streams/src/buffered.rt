//! A buffer before a sink, for what is written in many small parts.

ghost use Rattle.std.specs.Prelude.{◌≡◌, ◌+◌, ◌≤◌, length, [], ◌++◌, vec_len, vec_capacity, drop, IfOk, OnOk, OnErr};
ghost use Rattle.std.specs.Io.KnownBytes.{Appends, append_known};
ghost use Rattle.eve_streams.specs.Failures.{after_failure};
ghost use Rattle.eve_streams.specs.declared.buffered.TheConstants.{ROOM};

use crate::sink::send_prefix;
use crate::{SendFault, Sink};
use std::alloc::{AllocError, Global};

/// A sink that holds what it takes, and sends it on to the sink behind it where it is full or
/// flushed. Its bytes are those of the sink behind it and then those that it holds. What it holds
/// when it is dropped is lost.
#[derive(Drop)]
pub struct Buffered<S: Drop> {
    sink: S,
    held: Vec<u8>,
    ghost within: { vec_len held ≤ ROOM },
    ghost room: { ROOM ≤ vec_capacity held },
}

/// How many bytes are held at most.
const ROOM: usize = 64 * 1024;

impl<S: Sink + Drop> Buffered<S> {
    ghost use Rattle.eve_streams.specs.Buffers.{held_bytes, sink_behind, SendsHeld};

    /// A buffer that holds nothing. Where memory runs out, the sink is dropped.
    pub fn new(alloc: Global, sink: S) -> Result<Buffered<S>, AllocError>
        ensures sink { IfOk result (λ b. sink_behind b ≡ sink) }
        ensures empty { IfOk result (λ b. held_bytes b ≡ []) }
    {
        let held = Vec::with_capacity(alloc, ROOM)?;
        Ok(Buffered { sink, held })
    }

    /// The sink behind the buffer.
    pub fn sink(&self) -> &S
        ensures { result.now ≡ sink_behind self.now }
    {
        &self.sink
    }

    /// The bytes that are taken and not yet sent on.
    pub fn held(&self) -> &[u8]
        ensures { result.now ≡ held_bytes self.now }
    {
        self.held.as_slice()
    }

    /// Sends on what is held. After a fault a prefix of it has been sent on, and the rest is held.
    pub fn flush(&mut self) -> Result<(), SendFault>
        ensures sent { OnOk result
            (Appends (S.written (sink_behind self.old)) (S.written (sink_behind self.new)) (held_bytes self.old)) }
        ensures empty { OnOk result (held_bytes self.new ≡ []) }
        ensures prefix { OnErr result (SendsHeld S.written self.old self.new) }
        ensures fine { OnOk result
            (S.failures (sink_behind self.new) ≡ S.failures (sink_behind self.old)) }
        ensures counted { OnErr result
            (S.failures (sink_behind self.new) ≡ after_failure (S.failures (sink_behind self.old))) }
    {
        let (sent, result) = send_prefix(&mut self.sink, self.held.as_slice());
        remove_prefix(&mut self.held, sent);
        result
    }
}

impl<S: Sink + Drop> Sink for Buffered<S> {
    ghost written = { λ b. append_known (S.written b.sink) b.held.items };

    ghost failures = { λ b. S.failures b.sink };

    /// What is held is sent on first where there is no room; a fault of that takes nothing.
    fn send(&mut self, bytes: &[u8]) -> Result<usize, SendFault> {
        if self.held.len() == ROOM {
            self.flush()?;
        }
        let n = bytes.len().min(ROOM - self.held.len());
        hold(&mut self.held, &bytes[..n]);
        Ok(n)
    }
}

/// Appends bytes for which there is room.
fn hold(held: &mut Vec<u8>, bytes: &[u8])
    requires { vec_len held.old + length bytes.now ≤ vec_capacity held.old }
    ensures items { held.new.items ≡ held.old.items ++ bytes.now }
    ensures capacity { vec_capacity held.old ≤ vec_capacity held.new }
{
    let Ok(()) = held.extend_from_slice(bytes) else {
        unreachable!()
    };
}

fn remove_prefix(held: &mut Vec<u8>, n: usize)
    requires { n ≤ vec_len held.old }
    ensures items { held.new.items ≡ drop n held.old.items }
    ensures capacity { vec_capacity held.new ≡ vec_capacity held.old }
{
    let len = held.len();
    held.as_mut_slice().copy_within(n..len, 0);
    held.truncate(len - n);
}
