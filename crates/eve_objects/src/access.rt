//! The members of an Access frame.

ghost use Rattle.std.specs.Prelude.{◌≡◌, ◌≤◌, ◌++◌, OnOk, length};
ghost use Rattle.std.specs.List.{flat_map};
ghost use Rattle.eve_grammar.specs.declared.frame_kind.TheConstants.{FRAME_HEAD_LEN};
ghost use Rattle.eve_frames.specs.Views.{has_access_body, access_in};
ghost use Rattle.eve_objects.specs.Bytes.{members_if};
ghost use Rattle.eve_objects.specs.FrameObjects.{access_members, entry_item};

use crate::members::{begin_array, put_number};
use crate::rows::put_entry;
use eve_frames::AccessView;
use eve_grammar::{FRAME_HEAD_LEN, MOST_ROWS, is_access_body};
use json::Writer;
use std::alloc::AllocError;

/// Appends its entries.
fn put_entries(writer: &mut Writer, access: &AccessView) -> Result<(), AllocError>
    ensures tokens { OnOk result (writer.new.tokens ≡ writer.old.tokens
        ++ flat_map entry_item (access_in access.now.bytes.now).entries) }
    ensures before { OnOk result (writer.new.before ≡ writer.old.before) }
{
    for entry in access.entries() {
        put_entry(writer, &entry)?;
    }
    Ok(())
}

/// Appends what an access record says.
#[tactic(auto, unfolding(crate::specs::FrameObjects::access_members, crate::specs::Members::array_member))]
fn put_access(writer: &mut Writer, access: &AccessView) -> Result<(), AllocError>
    ensures tokens { OnOk result (writer.new.tokens ≡ writer.old.tokens
        ++ access_members (access_in access.now.bytes.now)) }
    ensures before { OnOk result (writer.new.before ≡ writer.old.before) }
{
    put_number(writer, "worker", u64::from(access.worker()))?;
    put_number(writer, "place", u64::from(access.place()))?;
    put_number(writer, "request", u64::from(access.index()))?;
    begin_array(writer, "entries")?;
    put_entries(writer, access)?;
    writer.end_array()
}

/// Appends what an Access frame says, nothing where its body isn't right.
pub(crate) fn put_access_frame(writer: &mut Writer, frame: &[u8]) -> Result<(), AllocError>
    requires framed { FRAME_HEAD_LEN ≤ length frame.now }
    ensures tokens { OnOk result (writer.new.tokens ≡ writer.old.tokens
        ++ members_if (has_access_body frame.now) (access_members (access_in frame.now))) }
    ensures before { OnOk result (writer.new.before ≡ writer.old.before) }
{
    if !is_access_body(MOST_ROWS, &frame[FRAME_HEAD_LEN..]) {
        return Ok(());
    }
    put_access(writer, &AccessView::new(0, frame))
}
