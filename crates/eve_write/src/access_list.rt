//! The accesses of an attempt.

ghost use Rattle.std.specs.Prelude.{◌≡◌, ◌+◌, ◌*◌, ◌≤◌, ◌-◌, ◌^◌, [], ◌∷◌, ◌++◌, IsTrue, min, length};
ghost use Rattle.std.specs.Prelude.{IfOk, OnOk, OnErr, vec_len, vec_capacity};
ghost use Rattle.std.specs.List.{flat_map, list_all};
ghost use Rattle.arrayvec.specs.ArrayVec.{array_vec_len};
ghost use Rattle.eve_grammar.specs.Limits.{is_access};
ghost use Rattle.eve_write.specs.AccessLists.{noted_access, access_text, note_text, is_note};
ghost use Rattle.eve_write.specs.Writes.{Puts, Writes};

use crate::entries::each_entry_fits;
use crate::fields::{byte, put_few_entries};
use crate::pieces::{put, send};
use crate::short::{LONGEST_SHORT, MOST_GATHERED};
use arrayvec::ArrayVec;
use eve_grammar::ACCESS_FRAME;
use eve_smallbank::{Entry, UpToThree};
use eve_streams::{SendFault, Sink};
use std::alloc::{AllocError, Global};
use std::marker::Model;

/// What an access says beside its entries, and how many entries it has.
#[derive(Clone, Copy)]
pub(crate) struct AccessNote {
    pub worker: u8,
    pub count: u8,
    pub place: u16,
    pub index: u16,
}

/// Accesses one after another. Their entries stand in one list, so that an access takes the room of those that it has.
/// Contracts see the list of accesses.
#[derive(Drop)]
pub struct AccessList {
    notes: Vec<AccessNote>,
    entries: Vec<Entry>,
}

impl Model for AccessList {
    ghost use Rattle.std.specs.Prelude.{List};
    ghost use Rattle.eve_grammar.specs.Trace.{Access};
    ghost use Rattle.eve_write.specs.AccessLists.{accesses_listed, ShareEntries};

    ghost Value = { List Access };

    ghost view = { λ l. accesses_listed l.notes.items l.entries.items };

    ghost invariant = { λ l. ShareEntries l.notes.items l.entries.items };
}

impl AccessList {
    /// No accesses, with room for a number of them and of entries in all. It is refused only where memory runs out.
    pub fn with_capacity(
        alloc: Global,
        accesses: usize,
        entries: usize,
    ) -> Result<AccessList, AllocError>
        ensures { IfOk result (λ list. list ≡ []) }
    {
        Ok(AccessList {
            notes: Vec::with_capacity(alloc, accesses)?,
            entries: Vec::with_capacity(alloc, entries)?,
        })
    }

    /// How many there are.
    pub fn len(&self) -> usize
        ensures { result ≡ length self.now }
    {
        self.notes.len()
    }

    /// The entries of all of them, one after another.
    pub fn entries(&self) -> &[Entry]
        ensures { result.now ≡ flat_map (λ x. x.entries) self.now }
    {
        self.entries.as_slice()
    }

    /// Appends what a worker noted of the request with this index. It is refused only where memory runs out, and then
    /// the list is as it was.
    pub fn push(
        &mut self,
        worker: u8,
        place: u16,
        index: u16,
        entries: &UpToThree<Entry>,
    ) -> Result<(), AllocError>
        ensures pushed { OnOk result (self.new ≡ self.old ++ noted_access worker place index entries.now ∷ []) }
        ensures refused { OnErr result (self.new ≡ self.old) }
    {
        let count = entries.len();
        self.notes.reserve(1)?;
        self.entries.reserve(count)?;
        push_all(&mut self.entries, entries);
        self.notes.push_reserved(AccessNote {
            worker,
            count: count as u8,
            place,
            index,
        });
        Ok(())
    }

    /// How many bytes the frames take, and 2^64 - 1 for more.
    pub(crate) fn text_len(&self) -> u64
        ensures { result ≡ min (length (flat_map access_text self.now)) (2 ^ 64 - 1) }
    {
        let notes = (self.notes.len() as u64).saturating_mul(11);
        notes.saturating_add((self.entries.len() as u64).saturating_mul(29))
    }

    /// Whether each lies within the limits of a trace with `rows` rows.
    pub(crate) fn are_within(&self, rows: usize) -> bool
        ensures { result ≡ list_all (is_access rows) self.now }
    {
        notes_fit(self.notes.as_slice());
        each_entry_fits(self.entries.as_slice(), rows)
    }
}

/// Worker, place and index of each are numbers of one and of two bytes.
fn notes_fit(notes: &[AccessNote])
    ensures { IsTrue (list_all is_note notes.now) }
{
    for note in notes {
        note_fits(note);
    }
}

fn note_fits(note: &AccessNote)
    ensures { IsTrue (is_note note.now) }
{
    let _worker = note.worker;
    let _place = note.place;
    let _index = note.index;
}

/// Appends entries to a list that has room for them.
fn push_all(list: &mut Vec<Entry>, entries: &UpToThree<Entry>)
    requires few { length entries.now ≤ 3 }
    requires room { vec_len list.old + length entries.now ≤ vec_capacity list.old }
    ensures { list.new.items ≡ list.old.items ++ entries.now }
{
    for place in 0..3 {
        if place < entries.len() {
            list.push_reserved(entries.at(place));
        }
    }
}

/// Writes the Access frames, one after another.
///
/// docs/TRACE.md, "Frames". After a fault a prefix of the frames has been taken, and not all of it.
pub fn write_accesses<W: Sink>(out: &mut W, list: &AccessList) -> Result<(), SendFault>
    ensures { Writes W.written W.failures out.old out.new result (flat_map access_text list.now) }
{
    let mut texts = ArrayVec::<u8, MOST_GATHERED>::new();
    let mut left = list.entries.as_slice();
    for note in list.notes.as_slice() {
        if texts.len() > MOST_GATHERED - LONGEST_SHORT {
            send(out, texts.as_slice())?;
            texts.clear();
        }
        let (own, others) = left.split_at(note.count as usize);
        put_access(&mut texts, note, own);
        left = others;
    }
    send(out, texts.as_slice())
}

/// Appends a frame with these entries.
fn put_access<const N: usize>(frame: &mut ArrayVec<u8, N>, note: &AccessNote, entries: &[Entry])
    requires count { length entries.now ≡ note.now.count }
    requires few { length entries.now ≤ 3 }
    requires room { array_vec_len frame.old + 11 + 29 * length entries.now ≤ N }
    ensures { Puts frame.old.items frame.new.items
        (access_text (noted_access note.now.worker note.now.place note.now.index entries.now)) }
{
    put_note(frame, note);
    put_few_entries(frame, entries);
}

/// Appends what stands before the entries of a frame.
pub(crate) fn put_note<const N: usize>(frame: &mut ArrayVec<u8, N>, note: &AccessNote)
    requires { array_vec_len frame.old + 11 ≤ N }
    ensures puts { Puts frame.old.items frame.new.items (note_text note.now) }
    ensures len { array_vec_len frame.new ≡ array_vec_len frame.old + 11 }
{
    let body_len = 6 + 29 * u32::from(note.count);
    put(frame, &byte(ACCESS_FRAME));
    put(frame, &body_len.to_be_bytes());
    put(frame, &byte(note.worker));
    put(frame, &note.place.to_be_bytes());
    put(frame, &note.index.to_be_bytes());
    put(frame, &byte(note.count));
}
