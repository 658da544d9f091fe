//! A trace that was read.

ghost use Rattle.std.specs.Prelude.{◌≡◌, ℕ, ◌≤◌, IsTrue, IsFalse, ◌<◌, ◌+◌, ◌-◌, Some, IfSome, IfNone, length, take};
ghost use Rattle.std.specs.Prelude.{drop, slice_get, IfOk, IfErr};
ghost use Rattle.eve_grammar.specs.Frames.{Frame, OfCustomer, OfBatch, OfSent, frames_of};
ghost use Rattle.eve_grammar.specs.Spelling.{frame_text, frames_text, frames_at, section_start, customers_at};
ghost use Rattle.eve_grammar.specs.Spelling.{batches_at, steps_at, votes_at, sent_at};
ghost use Rattle.eve_grammar.specs.Trace.{Trace as TraceValue, head_of};
ghost use Rattle.eve_grammar.specs.Limits.{HasLimits};
ghost use Rattle.eve_grammar.specs.FrameOrder.{Spells};
ghost use Rattle.eve_grammar.specs.declared.head.TheConstants.{HEADER_LEN};
ghost use Rattle.eve_frames.specs.Decoded.{batch_decoded, customer_decoded, sent_decoded};
ghost use Rattle.eve_views.specs.Form.{SaysHead, IfFound, IsLeast, HasNone, StandsInForm, IsFaultOutside};
ghost use Rattle.eve_views.specs.inner.Header.{IsHeader};
ghost use Rattle.eve_views.specs.Indexes.{IsIndex};
ghost use Rattle.eve_views.specs.inner.FramesBefore.{before_section, before_verifier, before_sent};
ghost use Rattle.eve_views.specs.Parts.{is_in_section};
ghost use Rattle.eve_views.specs.Lent.{HasBytesAt};

use crate::fault::{CheckFault, Fault};
use crate::frames::Frames;
use crate::header::head_of;
use crate::side_by_side::index_side_by_side;
use crate::steps::Steps;
use crate::votes::Votes;
use crate::walk::{Index, index_of};
use eve_frames::{BatchView, CustomerView, FrameView, SentView};
use eve_grammar::Head;
use std::alloc::Global;
use std::marker::Model;
use std::thread::Threads;

/// A trace, borrowed as it stands in memory.
///
/// docs/TRACE.md. Contracts see it as the trace that its bytes spell, within the limits of the format. It takes
/// four bytes for each frame beside the trace's own.
#[derive(Drop)]
pub struct Trace<'a> {
    head: Head,
    bytes: &'a [u8],
    index: Index,
}

impl<'a> Model for Trace<'a> {
    ghost use Rattle.eve_grammar.specs.Trace.{Trace as TraceValue};
    ghost use Rattle.eve_views.specs.HeldTraces.{trace_held, IsTrace};

    ghost Value = { TraceValue };

    ghost view = { trace_held };

    ghost invariant = { IsTrace };
}

impl<'a> Trace<'a> {
    /// Reads a trace, or answers `Found`, the first fault of form: the one at the least offset, and of those at one
    /// offset the one with the least number.
    ///
    /// docs/TRACE.md, "Faults of form". One pass over the bytes, and no memory but for the frames' offsets, as
    /// they come. Refused memory decides nothing.
    pub fn read(alloc: Global, bytes: &'a [u8]) -> Result<Trace<'a>, CheckFault>
        ensures trace { IfOk result (Spells bytes.now) }
        ensures faultless { IfOk result (λ _. HasNone (IsFaultOutside StandsInForm bytes.now)) }
        ensures least { IfErr result (λ e. IfFound e (IsLeast (IsFaultOutside StandsInForm bytes.now))) }
        ensures no_trace { IfErr result (λ e. IfFound e (λ _. (t : TraceValue) → ¬ Spells bytes.now t)) }
        ensures within { IfErr result (λ e. IfFound e (λ f. f.offset ≤ length bytes.now)) }
    {
        let head = match read_head(bytes) {
            Ok(head) => head,
            Err(fault) => return Err(fault),
        };
        Trace::of_index(head, bytes, index_of(alloc, head, bytes))
    }

    /// Reads a trace as `read` does, with up to `jobs` jobs: the same trace, or `Found` with the same fault.
    ///
    /// docs/TRACE.md, "Faults of form". With two jobs or more the bodies of batches, attempts, access records and
    /// transfers are judged side by side, in as many threads at most, and in no more than the trace has whole 64 KiB.
    /// The caller is one of these threads, and finds the frames of the sections while the others judge the batches.
    /// Only where a fault stands there is another pass over the bytes, by the caller, up to the first fault. With one
    /// job, or in a trace of less than 128 KiB, no thread is started, and it is read as `read` does. Refused memory
    /// decides nothing.
    pub fn read_side_by_side<R: Threads + Sync>(
        rt: &R,
        alloc: Global,
        bytes: &'a [u8],
        jobs: u8,
    ) -> Result<Trace<'a>, CheckFault>
        ensures trace { IfOk result (Spells bytes.now) }
        ensures faultless { IfOk result (λ _. HasNone (IsFaultOutside StandsInForm bytes.now)) }
        ensures least { IfErr result (λ e. IfFound e (IsLeast (IsFaultOutside StandsInForm bytes.now))) }
        ensures no_trace { IfErr result (λ e. IfFound e (λ _. (t : TraceValue) → ¬ Spells bytes.now t)) }
        ensures within { IfErr result (λ e. IfFound e (λ f. f.offset ≤ length bytes.now)) }
    {
        let head = match read_head(bytes) {
            Ok(head) => head,
            Err(fault) => return Err(fault),
        };
        let found = index_side_by_side(rt, alloc, head, bytes, jobs);
        Trace::of_index(head, bytes, found)
    }

    /// The trace under a head, with the index of its frames that was found, or the first fault among them.
    fn of_index(
        head: Head,
        bytes: &'a [u8],
        found: Result<Index, CheckFault>,
    ) -> Result<Trace<'a>, CheckFault>
        requires header { IsHeader bytes.now head }
        requires found { IfOk found (IsIndex head bytes.now) }
        requires fault { IfErr found (λ e. IfFound e (IsFaultOutside StandsInForm bytes.now)) }
        ensures trace { IfOk result (Spells bytes.now) }
        ensures faultless { IfOk result (λ _. HasNone (IsFaultOutside StandsInForm bytes.now)) }
        ensures least { IfErr result (λ e. IfFound e (IsLeast (IsFaultOutside StandsInForm bytes.now))) }
        ensures no_trace { IfErr result (λ e. IfFound e (λ _. (t : TraceValue) → ¬ Spells bytes.now t)) }
        ensures within { IfErr result (λ e. IfFound e (λ f. f.offset ≤ length bytes.now)) }
    {
        match found {
            Ok(index) => Ok(Trace { head, bytes, index }),
            Err(fault) => Err(fault),
        }
    }

    /// The limits that the header says.
    pub fn head(&self) -> Head
        ensures { result ≡ head_of self.now }
    {
        let head = self.head;
        head
    }

    /// How many frames there are, with the end.
    pub fn frame_count(&self) -> usize
        ensures { result ≡ length (frames_of self.now) }
    {
        self.index.offsets.len()
    }

    /// The byte at which a frame begins, or the number of bytes after the last.
    fn start_of(&self, i: usize) -> usize
        requires { i ≤ length (frames_of self.now) }
        ensures { result ≡ HEADER_LEN + length (frames_text (take i (frames_of self.now))) }
    {
        if i < self.index.offsets.len() {
            self.index.offsets[i] as usize
        } else {
            self.bytes.len()
        }
    }

    /// A frame, by its number from 0. The frames stand one after the other from byte 32 on, up to the last byte.
    pub fn frame(&self, i: usize) -> FrameView<'a>
        requires { i < length (frames_of self.now) }
        ensures frame { (f : Frame) × (slice_get (frames_of self.now) i ≡ Some f) × (result.bytes.now ≡ frame_text f) }
        ensures offset { result.offset ≡ HEADER_LEN + length (frames_text (take i (frames_of self.now))) }
        ensures stands { HasBytesAt self.now result.offset result.bytes.now }
    {
        let bytes = self.bytes;
        let from = self.start_of(i);
        let to = self.start_of(i + 1);
        FrameView {
            offset: from as u64,
            bytes: part(bytes, from, to),
        }
    }

    /// All frames, one after the other.
    pub fn frames(&self) -> Frames<'_, 'a>
        ensures { result ≡ frames_at self.now }
    {
        Frames::new(self)
    }

    /// All its bytes, header and frames.
    pub fn bytes(&self) -> &'a [u8]
        ensures { Spells result.now self.now }
    {
        let all = self.bytes;
        all
    }

    /// What is true of each trace that was read: it is within the limits.
    pub fn recall_limits(&self)
        ensures { HasLimits self.now }
    {
        let _head = self.head;
    }

    /// How many customers there are.
    pub fn customer_count(&self) -> u32
        ensures { result ≡ length self.now.customers }
    {
        self.head.customers
    }

    /// How many batches there are.
    pub fn batch_count(&self) -> u32
        ensures { result ≡ length self.now.batches }
    {
        self.head.batches
    }

    /// How many replicas there are, each with a section.
    pub fn section_count(&self) -> u8
        ensures { result ≡ length self.now.sections }
    {
        self.head.replicas
    }

    /// How many verifiers there are.
    pub fn verifier_count(&self) -> u8
        ensures { result ≡ length self.now.verifiers }
    {
        self.head.verifiers
    }

    /// A customer, by number from 0.
    pub fn customer(&self, i: u32) -> CustomerView<'a>
        requires { i < length self.now.customers }
        ensures says { slice_get (customers_at self.now) i ≡ Some (result.offset, customer_decoded result) }
        ensures text { result.bytes.now ≡ frame_text (OfCustomer (customer_decoded result)) }
        ensures stands { HasBytesAt self.now result.offset result.bytes.now }
    {
        self.recall_limits();
        let frame = self.frame(i as usize);
        CustomerView::new(frame.offset, frame.bytes)
    }

    /// A batch, by its number from 1.
    pub fn batch(&self, n: u32) -> BatchView<'a>
        requires from_one { 1 ≤ n }
        requires there { n ≤ length self.now.batches }
        ensures says { slice_get (batches_at self.now) (n - 1) ≡ Some (result.offset, batch_decoded result) }
        ensures text { result.bytes.now
            ≡ frame_text (OfBatch (batch_decoded result).0 (batch_decoded result).1) }
        ensures stands { HasBytesAt self.now result.offset result.bytes.now }
    {
        let frame = self.frame(self.head.customers as usize + n as usize - 1);
        BatchView::new(frame.offset, frame.bytes)
    }

    /// The number of the frame that begins a section, or of the frame after the last section.
    fn section_from(&self, e: u8) -> u32
        requires { e ≤ length self.now.sections }
        ensures { result ≡ length (before_section self.now e) }
    {
        if e < self.head.replicas {
            self.index.starts.sections[e as usize]
        } else {
            self.index.starts.verifiers[0]
        }
    }

    /// The number of the frame that begins a verifier's part, or of the frame after the last.
    fn verifier_from(&self, v: u8) -> u32
        requires { v ≤ length self.now.verifiers }
        ensures { result ≡ length (before_verifier self.now v) }
    {
        if v < self.head.verifiers {
            self.index.starts.verifiers[v as usize]
        } else {
            self.index.starts.sent
        }
    }

    /// The number of the first reply sent, or of the end.
    fn sent_from(&self) -> u32
        ensures { result ≡ length (before_sent self.now) }
    {
        self.index.starts.sent
    }

    /// What a replica did, by the replica's number from 0, step by step.
    pub fn section(&self, e: u8) -> Steps<'_, 'a>
        requires { e < length self.now.sections }
        ensures { result ≡ steps_at self.now e }
    {
        self.recall_limits();
        let from = self.section_from(e) as usize + 1;
        let to = self.section_from(e + 1) as usize;
        Steps::new(self, from, to)
    }

    /// The byte at which a section begins, or the byte after the last section.
    fn section_begins(&self, e: u8) -> u64
        requires { e ≤ length self.now.sections }
        ensures { result ≡ section_start self.now e }
    {
        self.start_of(self.section_from(e) as usize) as u64
    }

    /// The replica in whose section this byte of the trace lies; a section begins with its replica's own frame.
    ///
    /// `None` for the header, customers, batches, votes, replies sent, the end, and what lies after it.
    pub fn section_of(&self, offset: u64) -> Option<u8>
        ensures inside { IfSome result (λ e. (e < length self.now.sections)
            × IsTrue (is_in_section self.now e offset)) }
        ensures outside { IfNone result ((e : ℕ) → e < length self.now.sections
            → IsFalse (is_in_section self.now e offset)) }
    {
        let replicas = self.head.replicas;
        'sections: for e in 0..replicas {
            if self.section_begins(e) <= offset && offset < self.section_begins(e + 1) {
                return Some(e);
            }
        }
        None
    }

    /// The votes of a verifier, by the verifier's number from 0.
    pub fn votes(&self, v: u8) -> Votes<'_, 'a>
        requires { v < length self.now.verifiers }
        ensures { result ≡ votes_at self.now v }
    {
        self.recall_limits();
        let from = self.verifier_from(v) as usize + 1;
        let to = self.verifier_from(v + 1) as usize;
        Votes::new(self, from, to)
    }

    /// How many replies were sent.
    pub fn sent_count(&self) -> usize
        ensures { result ≡ length self.now.sent }
    {
        self.frame_count() - 1 - self.sent_from() as usize
    }

    /// A reply sent, by its place from 0.
    pub fn sent(&self, i: usize) -> SentView<'a>
        requires { i < length self.now.sent }
        ensures says { slice_get (sent_at self.now) i ≡ Some (result.offset, sent_decoded result) }
        ensures text { result.bytes.now ≡ frame_text (OfSent (sent_decoded result)) }
        ensures stands { HasBytesAt self.now result.offset result.bytes.now }
    {
        self.recall_limits();
        prove!(i < self.frame_count());
        let frame = self.frame(self.sent_from() as usize + i);
        SentView::new(frame.offset, frame.bytes)
    }
}

fn part(bytes: &[u8], from: usize, to: usize) -> &[u8]
    requires rising { from ≤ to }
    requires inside { to ≤ length bytes.now }
    ensures { result.now ≡ take (to - from) (drop from bytes.now) }
{
    &bytes[from..to]
}

/// The head that the header says, or the first fault, where it is one of the header.
fn read_head(bytes: &[u8]) -> Result<Head, CheckFault>
    ensures header { IfOk result (λ head. IsHeader bytes.now head) }
    ensures says { IfOk result (λ head. SaysHead bytes.now head) }
    ensures least { IfErr result (λ e. IfFound e (IsLeast (IsFaultOutside StandsInForm bytes.now))) }
    ensures no_trace { IfErr result (λ e. IfFound e (λ _. (t : TraceValue) → ¬ Spells bytes.now t)) }
    ensures within { IfErr result (λ e. IfFound e (λ f. f.offset ≤ length bytes.now)) }
{
    match head_of(bytes) {
        Ok(head) => Ok(head),
        Err(code) => Err(CheckFault::Found(Fault {
            code,
            offset: 0,
            replica: None,
        })),
    }
}
