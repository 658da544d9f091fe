//! The lists of a frame that are still to come.

ghost use Rattle.std.specs.Prelude.{◌≡◌, ◌+◌, ◌≤◌, ◌∷◌, [], IfNone, IfSome, IsFalse, true};
ghost use Rattle.arrayvec.specs.ArrayVec.{array_vec_len};
ghost use Rattle.eve_lines.specs.Rest.{PutsPart, items_left, numbers_left, rows_left};
ghost use Rattle.eve_lines.specs.Words.{list_words};

use crate::line::{LINE_ROOM, Line, put};
use crate::words::{parting, put_entry, put_reply, put_request, put_row};
use eve_frames::{BatchView, Certificate, Entries, Replies, Requests, Restores, TransferView};

/// The sizes of a batch, and how many of them came.
#[derive(Clone, Copy)]
pub(crate) struct Sizes<'a> {
    pub(crate) batch: BatchView<'a>,
    pub(crate) came: usize,
}

/// The rows of a state transferred, and how many of them came.
#[derive(Clone, Copy)]
pub(crate) struct StateRows<'a> {
    pub(crate) transfer: TransferView<'a>,
    pub(crate) came: usize,
}

/// Numbers that are still to come.
#[derive(Drop)]
pub(crate) enum Numbers<'a> {
    None,
    Sizes(Sizes<'a>),
    Indexes(Certificate<'a>),
}

/// Items that are still to come.
#[derive(Drop)]
pub(crate) enum Items<'a> {
    None,
    Entries(Entries<'a>),
    Replies(Replies<'a>),
    Requests(Requests<'a>),
    Restores(Restores<'a>),
    Rows(StateRows<'a>),
}

impl Numbers<'_> {
    /// The next number.
    pub(crate) fn next(&mut self) -> Option<u16>
        ensures some { IfSome result (λ number. numbers_left self.old ≡ number ∷ numbers_left self.new) }
        ensures none { IfNone result (numbers_left self.old ≡ []) }
        ensures left { IfNone result (numbers_left self.new ≡ []) }
    {
        match self {
            Numbers::None => None,
            Numbers::Sizes(sizes) => {
                let came = sizes.came;
                if came >= sizes.batch.groups() {
                    return None;
                }
                sizes.came = came + 1;
                Some(sizes.batch.group(came))
            }
            Numbers::Indexes(certificate) => certificate.next(),
        }
    }
}

impl StateRows<'_> {
    /// Appends the next row, behind what parts it from what stands before it; no, where all have come.
    fn put_next(&mut self, line: &mut Line, has_begun: bool) -> bool
        requires { array_vec_len line.old + 112 ≤ LINE_ROOM }
        ensures parts { PutsPart result line.old.items line.new.items
            (list_words has_begun (rows_left self.old)) (list_words true (rows_left self.new)) }
        ensures same { IsFalse result → array_vec_len line.new ≡ array_vec_len line.old }
    {
        let came = self.came;
        if came >= self.transfer.len() {
            return false;
        }
        self.came = came + 1;
        let has = self.transfer.row(came);
        put(line, parting(has_begun));
        put_row(line, came as u64, has.version, has.value);
        true
    }
}

impl Items<'_> {
    /// Appends the next item, behind what parts it from what stands before it; no, where all have come.
    pub(crate) fn put_next(&mut self, line: &mut Line, has_begun: bool) -> bool
        requires { array_vec_len line.old + 112 ≤ LINE_ROOM }
        ensures parts { PutsPart result line.old.items line.new.items
            (list_words has_begun (items_left self.old)) (list_words true (items_left self.new)) }
        ensures same { IsFalse result → array_vec_len line.new ≡ array_vec_len line.old }
    {
        match self {
            Items::None => false,
            Items::Entries(entries) => {
                let Some(entry) = entries.next() else {
                    return false;
                };
                put(line, parting(has_begun));
                put_entry(line, &entry);
                true
            }
            Items::Replies(replies) => {
                let Some(reply) = replies.next() else {
                    return false;
                };
                put(line, parting(has_begun));
                put_reply(line, reply);
                true
            }
            Items::Requests(requests) => {
                let Some(asked) = requests.next() else {
                    return false;
                };
                put(line, parting(has_begun));
                put_request(line, &asked);
                true
            }
            Items::Restores(restores) => {
                let Some(restore) = restores.next() else {
                    return false;
                };
                let row = u64::from(restore.row.number());
                put(line, parting(has_begun));
                put_row(line, row, restore.version, restore.value);
                true
            }
            Items::Rows(rows) => rows.put_next(line, has_begun),
        }
    }
}
