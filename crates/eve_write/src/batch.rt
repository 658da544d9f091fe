//! Batches and their frames.

ghost use Rattle.std.specs.Prelude.{◌≡◌, ◌-◌, ◌^◌, ◌∷◌, ◌++◌, min, sum, nat_le, IsTrue, length};
ghost use Rattle.std.specs.List.{list_all};
ghost use Rattle.byteorder.specs.Endian.{big_bytes};
ghost use Rattle.eve_grammar.specs.Frames.{OfBatch};
ghost use Rattle.eve_grammar.specs.Spelling.{body_text, frame_text};
ghost use Rattle.eve_grammar.specs.Limits.{is_batch};
ghost use Rattle.eve_write.specs.Data.{batch as plain};
ghost use Rattle.eve_write.specs.Writes.{Writes};

use crate::measure::Measure;
use crate::request::{RequestData, len_of_requests};
use crate::right::{Judge, all_right};
use crate::short::write_short;
use crate::spell::{send_texts, write_each};
use eve_grammar::{BATCH_FRAME, FRAME_HEAD_LEN, Head, MOST_REQUESTS};
use eve_streams::{SendFault, Sink};

/// A batch of requests, in parallelBatches. Its number is its place among the batches, from 1.
/// Contracts see it by `batch`.
#[derive(Drop)]
pub struct BatchData {
    /// How many requests each parallelBatch has.
    pub sizes: Vec<u16>,
    /// The requests of one parallelBatch after another.
    pub requests: Vec<RequestData>,
}

impl BatchData {
    /// How long the body of its frame is.
    pub(crate) fn body_len(&self) -> u32
        requires { IsTrue (is_batch (plain self.now)) }
        ensures { result ≡ length (body_text (OfBatch 1 (plain self.now))) }
    {
        6 + 2 * self.sizes.len() as u32 + len_of_requests(self.requests.as_slice())
    }

    /// Writes what stands before the sizes.
    fn write_prefix<W: Sink>(&self, out: &mut W, number: u32) -> Result<(), SendFault>
        requires { IsTrue (is_batch (plain self.now)) }
        ensures { Writes W.written W.failures out.old out.new result
            (BATCH_FRAME ∷ (big_bytes 4 (length (body_text (OfBatch number (plain self.now))))
            ++ (big_bytes 4 number ++ big_bytes 2 (length self.now.sizes.items)))) }
    {
        let body_len = self.body_len().to_be_bytes();
        let number = number.to_be_bytes();
        let groups = (self.sizes.len() as u16).to_be_bytes();
        send_texts(out, &[&[BATCH_FRAME], &body_len, &number, &groups])
    }
}

/// Writes a Batch frame with this number, of a batch within the limits.
///
/// docs/TRACE.md, "Frames". After a fault a prefix of the frame has been taken, and not all of it.
pub fn write_batch<W: Sink>(out: &mut W, number: u32, batch: &BatchData) -> Result<(), SendFault>
    requires { IsTrue (is_batch (plain batch.now)) }
    ensures { Writes W.written W.failures out.old out.new result
        (frame_text (OfBatch number (plain batch.now))) }
{
    batch.write_prefix(out, number)?;
    write_each(out, batch.sizes.as_slice())?;
    write_short(out, batch.requests.as_slice())
}

/// The sum of sizes, and 2^32 - 1 for a larger one.
fn total_of(sizes: &[u16]) -> u32
    ensures { result ≡ min (sum sizes.now) (2 ^ 32 - 1) }
{
    let mut total: u32 = 0;
    for size in sizes {
        total = total.saturating_add(*size as u32);
    }
    total
}

fn none_is_empty(sizes: &[u16]) -> bool
    ensures { result ≡ list_all (nat_le 1) sizes.now }
{
    sizes.iter().all(|size| 1 <= *size)
}

impl Measure for BatchData {
    ghost size = { λ b. length (frame_text (OfBatch 1 (plain b))) };

    ghost fits = { λ b. is_batch (plain b) };

    fn text_len(&self) -> u64 {
        FRAME_HEAD_LEN as u64 + self.body_len() as u64
    }
}

impl Judge for BatchData {
    ghost right = { λ h b. is_batch (plain b) };

    fn is_right(&self, head: &Head) -> bool {
        let sizes = self.sizes.as_slice();
        let total = total_of(sizes);
        if sizes.is_empty()
            || total as usize > MOST_REQUESTS
            || self.requests.len() != total as usize
        {
            return false;
        }
        none_is_empty(sizes) && all_right(self.requests.as_slice(), head)
    }
}
