//! The same trace, changed in every way of one kind.

use crate::audits::{by_one_thread, by_workers, push_by_one};
use crate::change::set_total;
use crate::meeting::Meeting;
use crate::ranges::Ranges;
use crate::texts::Missing;
use eve_audit::Verdict;
use eve_grammar::u32_at;
use eve_testing::Text;
use std::alloc::{AllocError, Global};
use std::random::RandomSource;
use std::sync::Wait;
use std::thread::Threads;

/// Whether the verdict is yes. If it is no, then at a place within the bytes or at their end.
fn is_accepted<R: AllocGlobal + RandomSource + Threads + Sync>(
    text: &mut Text,
    rt: &R,
    bytes: &[u8],
) -> bool {
    match by_one_thread(text, rt, bytes) {
        Some(Verdict::Yes(_)) => true,
        Some(Verdict::No(fault)) if fault.offset > bytes.len() as u64 => {
            text.fail(Missing::Verdict.error());
            false
        }
        _ => false,
    }
}

/// Whether one thread accepts the trace.
pub fn push_one<R: AllocGlobal + RandomSource + Threads + Sync>(
    text: &mut Text,
    rt: &R,
    bytes: &[u8],
) {
    let words = if is_accepted(text, rt, bytes) {
        "accepted"
    } else {
        "not accepted"
    };
    text.words(words);
}

/// Values of a byte: how many, the first and the last of them.
#[derive(Clone, Copy)]
struct Values {
    count: u32,
    least: u8,
    greatest: u8,
}

impl Values {
    /// These, and one that is greater.
    fn and(self, value: u8) -> Values {
        Values {
            count: self.count.saturating_add(1),
            least: if self.count == 0 { value } else { self.least },
            greatest: value,
        }
    }
}

/// With which values of a byte the verdict is yes. With the others it is no, at a place within the bytes or at their
/// end.
fn accepted_values<R: AllocGlobal + RandomSource + Threads + Sync>(
    text: &mut Text,
    rt: &R,
    copy: &mut [u8],
    place: usize,
) -> Values {
    let mut right = Values {
        count: 0,
        least: 0,
        greatest: 0,
    };
    for value in 0..=255u8 {
        match copy.get_mut(place) {
            Some(byte) => *byte = value,
            None => text.fail(Missing::Place.error()),
        }
        if is_accepted(text, rt, copy) {
            right = right.and(value);
        }
    }
    right
}

/// With how many values of the byte at a place the verdict is yes, and the first and the last of them.
fn push_values(text: &mut Text, values: Values) {
    if values.count < 2 {
        text.words("yes with its own value alone");
    } else {
        text.value("yes with ", u64::from(values.count));
        text.value(" values from ", u64::from(values.least));
        text.value(" to ", u64::from(values.greatest));
    }
}

/// The verdict of one thread, where two workers come to the same.
fn push_by_one_and_two<R: AllocGlobal + RandomSource + Threads + Wait + Sync>(
    text: &mut Text,
    rt: &R,
    bytes: &[u8],
) {
    let one = by_one_thread(text, rt, bytes);
    let two = by_workers(text, rt, bytes, 2, &Meeting::of(0));
    text.words(match one {
        _ if one != two => "two workers say something else",
        Some(Verdict::Yes(_)) => "yes",
        _ => "no",
    });
}

/// What is changed in a trace, in every way.
#[derive(Clone, Copy)]
pub enum Sweep {
    /// It ends early.
    Prefixes,
    /// A frame claims another number of bytes for its body.
    Lengths,
    /// Each byte has every value.
    Bytes,
    /// Each byte is one higher, modulo 256.
    Higher,
}

/// How a trace is changed, by a number.
#[derive(Clone, Copy)]
enum Way {
    /// Only the given number of its first bytes is left.
    Prefix,
    /// The same, with its own total.
    PrefixWithTotal,
    /// The frame at this place claims the given number of bytes for its body.
    Length(usize),
    /// The byte at this place has every value.
    Values,
    /// The byte at this place is one higher, modulo 256.
    Higher,
}

/// Lets the frame at this place claim another length of its body.
fn claim(bytes: &mut [u8], at: usize, length: usize) {
    let Ok(length) = u32::try_from(length) else {
        return;
    };
    if let Some(frame) = bytes.get_mut(at..) {
        if 5 <= frame.len() {
            frame[1..5].copy_from_slice(&length.to_be_bytes());
        }
    }
}

/// Makes the byte at this place one higher.
fn raise(bytes: &mut [u8], at: usize) {
    if let Some(byte) = bytes.get_mut(at) {
        *byte = byte.wrapping_add(1);
    }
}

/// The trace, changed in this way.
fn varied(alloc: Global, bytes: &[u8], way: Way, number: usize) -> Result<Vec<u8>, AllocError> {
    let mut copy = bytes.to_vec(alloc)?;
    match way {
        Way::Prefix => copy.truncate(number),
        Way::PrefixWithTotal => {
            copy.truncate(number);
            set_total(copy.as_mut_slice());
        }
        Way::Length(at) => claim(copy.as_mut_slice(), at, number),
        Way::Values => {}
        Way::Higher => raise(copy.as_mut_slice(), number),
    }
    Ok(copy)
}

/// What is said of the trace, changed in this way.
fn push_varied<R: AllocGlobal + RandomSource + Threads + Wait + Sync>(
    text: &mut Text,
    rt: &R,
    copy: &mut [u8],
    way: Way,
    number: usize,
) {
    match way {
        Way::Values => {
            let values = accepted_values(text, rt, copy, number);
            push_values(text, values);
        }
        Way::Higher => push_by_one_and_two(text, rt, copy),
        _ => push_by_one(text, rt, copy),
    }
}

/// What is said of the trace, changed in this way by this number.
fn said_of<R: AllocGlobal + RandomSource + Threads + Wait + Sync>(
    rt: &R,
    bytes: &[u8],
    way: Way,
    number: usize,
) -> Text {
    let mut text = Text::new(rt.alloc());
    match varied(rt.alloc(), bytes, way, number) {
        Ok(mut copy) => push_varied(&mut text, rt, copy.as_mut_slice(), way, number),
        Err(_) => text.refused(),
    }
    text
}

/// What is said of the trace, changed in this way by each number from one up to another.
fn say_each<R: AllocGlobal + RandomSource + Threads + Wait + Sync>(
    ranges: &mut Ranges,
    rt: &R,
    bytes: &[u8],
    way: Way,
    numbers: (usize, usize),
) {
    for number in numbers.0..numbers.1 {
        let line = said_of(rt, bytes, way, number);
        ranges.say(number, &line);
    }
}

/// What is said of each prefix of a trace but the whole, as it is; and of those with a header, with their own totals.
fn say_prefixes<R: AllocGlobal + RandomSource + Threads + Wait + Sync>(
    ranges: &mut Ranges,
    rt: &R,
    bytes: &[u8],
) {
    ranges.head("the first bytes");
    say_each(ranges, rt, bytes, Way::Prefix, (0, bytes.len()));
    ranges.head("\n  and with their own total");
    say_each(ranges, rt, bytes, Way::PrefixWithTotal, (32, bytes.len()));
}

/// The frame at a place, and the length of its body that it claims.
fn frame_at(bytes: &[u8], place: Option<&str>) -> Option<(usize, u32)> {
    let Ok(at) = place.unwrap_or("").parse::<usize>() else {
        return None;
    };
    let Some(frame) = bytes.get(at.saturating_add(1)..) else {
        return None;
    };
    match u32_at(frame) {
        Some((length, _)) => Some((at, length)),
        None => None,
    }
}

/// What is said where a frame claims another number of bytes for its body: from none to one more than it has.
fn say_lengths<R: AllocGlobal + RandomSource + Threads + Wait + Sync>(
    ranges: &mut Ranges,
    rt: &R,
    bytes: &[u8],
    place: Option<&str>,
) {
    let Some((at, length)) = frame_at(bytes, place) else {
        ranges.miss(Missing::Place);
        return;
    };
    ranges.head("a body of so many bytes");
    say_each(ranges, rt, bytes, Way::Length(at), (0, length as usize + 2));
}

fn say_all<R: AllocGlobal + RandomSource + Threads + Wait + Sync>(
    ranges: &mut Ranges,
    rt: &R,
    sweep: Sweep,
    bytes: &[u8],
    more: Option<&str>,
) {
    match sweep {
        Sweep::Prefixes => say_prefixes(ranges, rt, bytes),
        Sweep::Lengths => say_lengths(ranges, rt, bytes, more),
        Sweep::Bytes => {
            ranges.head("each byte");
            say_each(ranges, rt, bytes, Way::Values, (0, bytes.len()));
        }
        Sweep::Higher => {
            ranges.head("each byte one higher");
            say_each(ranges, rt, bytes, Way::Higher, (0, bytes.len()));
        }
    }
}

/// What is said of the trace, changed in every way of the sweep.
pub fn push_swept<R: AllocGlobal + RandomSource + Threads + Wait + Sync>(
    text: &mut Text,
    rt: &R,
    sweep: Sweep,
    bytes: &[u8],
    more: Option<&str>,
) {
    let mut ranges = Ranges::new(rt.alloc());
    say_all(&mut ranges, rt, sweep, bytes, more);
    ranges.push_all(text);
}
