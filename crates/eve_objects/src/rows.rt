//! Rows, and entries of access records.

ghost use Rattle.std.specs.Prelude.{◌≡◌, ◌++◌, OnOk};
ghost use Rattle.eve_objects.specs.FrameObjects.{after_members, entry_item, entry_members, restore_item};
ghost use Rattle.eve_objects.specs.FrameObjects.{row_item, row_members};

use crate::members::{put_number, put_signed, put_string};
use eve_accounts::Cents;
use eve_grammar::Restore;
use eve_lines::kind_word;
use eve_smallbank::{Entry, Kind, Versioned};
use json::Writer;
use std::alloc::AllocError;

/// Appends a row and what it has: `"row":1,"version":1,"value":100`.
fn put_row(writer: &mut Writer, row: u64, version: u64, value: Cents) -> Result<(), AllocError>
    ensures tokens { OnOk result (writer.new.tokens ≡ writer.old.tokens ++ row_members row version value) }
    ensures before { OnOk result (writer.new.before ≡ writer.old.before) }
{
    put_number(writer, "row", row)?;
    put_number(writer, "version", version)?;
    put_signed(writer, "value", value.get())
}

/// Appends a row, with what it has.
#[tactic(auto, unfolding(crate::specs::Members::object))]
pub(crate) fn put_row_item(writer: &mut Writer, row: u64, has: Versioned) -> Result<(), AllocError>
    ensures tokens { OnOk result (writer.new.tokens ≡ writer.old.tokens ++ row_item (row, has)) }
    ensures before { OnOk result (writer.new.before ≡ writer.old.before) }
{
    writer.begin_object()?;
    put_row(writer, row, has.version, has.value)?;
    writer.end_object()
}

/// Appends what a rollback restores of a row.
#[tactic(auto, unfolding(crate::specs::Members::object))]
pub(crate) fn put_restore(writer: &mut Writer, restore: &Restore) -> Result<(), AllocError>
    ensures tokens { OnOk result (writer.new.tokens ≡ writer.old.tokens ++ restore_item restore.now) }
    ensures before { OnOk result (writer.new.before ≡ writer.old.before) }
{
    writer.begin_object()?;
    let row = u64::from(restore.row.number());
    put_row(writer, row, restore.version, restore.value)?;
    writer.end_object()
}

/// Appends what a write left; nothing of a read.
fn put_after(writer: &mut Writer, kind: Kind, after: Cents) -> Result<(), AllocError>
    ensures tokens { OnOk result (writer.new.tokens ≡ writer.old.tokens ++ after_members kind after) }
    ensures before { OnOk result (writer.new.before ≡ writer.old.before) }
{
    match kind {
        Kind::Read => Ok(()),
        Kind::Write => put_signed(writer, "to", after.get()),
    }
}

/// Appends an entry's members.
fn put_entry_members(writer: &mut Writer, entry: &Entry) -> Result<(), AllocError>
    ensures tokens { OnOk result (writer.new.tokens ≡ writer.old.tokens ++ entry_members entry.now) }
    ensures before { OnOk result (writer.new.before ≡ writer.old.before) }
{
    put_string(writer, "kind", kind_word(entry.kind))?;
    let row = u64::from(entry.row.number());
    put_row(writer, row, entry.version, entry.seen)?;
    put_after(writer, entry.kind, entry.after)
}

/// Appends an entry: `{"kind":"write","row":1,"version":0,"value":0,"to":500}`.
#[tactic(auto, unfolding(crate::specs::Members::object))]
pub(crate) fn put_entry(writer: &mut Writer, entry: &Entry) -> Result<(), AllocError>
    ensures tokens { OnOk result (writer.new.tokens ≡ writer.old.tokens ++ entry_item entry.now) }
    ensures before { OnOk result (writer.new.before ≡ writer.old.before) }
{
    writer.begin_object()?;
    put_entry_members(writer, entry)?;
    writer.end_object()
}
