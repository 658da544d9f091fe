//! Changes of a trace's bytes.

use std::alloc::Global;

/// A change: the bytes from one place up to another become these.
#[derive(Drop)]
struct Change {
    from: usize,
    to: usize,
    bytes: Vec<u8>,
}

/// The places that a change names: from one up to another, or from one on as many as there are bytes.
fn range_of(place: &str, len: usize) -> Option<(usize, usize)> {
    let Some((from, to)) = place.split_once("..") else {
        return match place.parse::<usize>() {
            Ok(from) => Some((from, from.saturating_add(len))),
            Err(_) => None,
        };
    };
    match (from.parse::<usize>(), to.parse::<usize>()) {
        (Ok(from), Ok(to)) => Some((from, to)),
        _ => None,
    }
}

/// The change of a word. `AT=HEX` puts its bytes in place of as many at AT; `FROM..TO=HEX` puts its bytes, of any
/// number, in place of those from FROM up to TO. Places are those of the file, from 0.
fn change_of(alloc: Global, word: &str) -> Option<Change> {
    let Some((place, hex)) = word.split_once('=') else {
        return None;
    };
    let Ok(bytes) = hex::decode(alloc, hex) else {
        return None;
    };
    match range_of(place, bytes.len()) {
        Some((from, to)) => Some(Change { from, to, bytes }),
        None => None,
    }
}

/// Sets the total of a trace, of fewer than 65,536 bytes, to the number of its bytes.
pub fn set_total(bytes: &mut [u8]) {
    let total = bytes.len();
    if 32 <= total && total < 65_536 {
        bytes[24..32].copy_from_slice(&(total as u64).to_be_bytes());
    }
}

/// Adds bytes that are kept, which are there if the change before them lies within the trace and before the next. No,
/// where they aren't there, or memory is refused.
fn push_kept(out: &mut Vec<u8>, kept: Option<&[u8]>) -> bool {
    match kept {
        Some(kept) => out.extend_from_slice(kept).is_ok(),
        None => false,
    }
}

/// Adds the bytes from a place on up to the change of a word, and those of the change. The place behind it.
fn push_change(
    out: &mut Vec<u8>,
    alloc: Global,
    bytes: &[u8],
    done: usize,
    word: &str,
) -> Option<usize> {
    let Some(change) = change_of(alloc, word) else {
        return None;
    };
    let is_pushed = push_kept(out, bytes.get(done..change.from))
        && push_kept(out, Some(change.bytes.as_slice()));
    if is_pushed { Some(change.to) } else { None }
}

/// Adds the bytes with all changes, which come in the order of their places. No, where they don't, or memory is
/// refused.
fn push_changed(out: &mut Vec<u8>, alloc: Global, bytes: &[u8], changes: Option<&str>) -> bool {
    let mut done = 0;
    if let Some(words) = changes {
        for word in words.split(' ') {
            let Some(behind) = push_change(out, alloc, bytes, done, word) else {
                return false;
            };
            done = behind;
        }
    }
    push_kept(out, bytes.get(done..))
}

/// The bytes with all changes. Where their number is another than before, the header gets it as its total. None where
/// the changes aren't in their order, within the trace, or memory is refused.
pub fn changed(alloc: Global, bytes: &[u8], changes: Option<&str>) -> Option<Vec<u8>> {
    let mut out = Vec::new(alloc);
    if !push_changed(&mut out, alloc, bytes, changes) {
        return None;
    }
    if out.len() != bytes.len() {
        set_total(out.as_mut_slice());
    }
    Some(out)
}
