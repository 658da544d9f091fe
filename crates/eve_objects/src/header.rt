//! The header.

ghost use Rattle.std.specs.Prelude.{◌≡◌, ◌++◌, OnOk, IfOk};
ghost use Rattle.eve_objects.specs.FrameObjects.{extent_members, header_object, party_members, show_members};

use crate::line::{begin_line, end_line};
use crate::members::{put_number, put_string};
use eve_grammar::Head;
use json::Writer;
use std::alloc::AllocError;

/// Appends what `show` prints of the header, or of a frame: where it begins, its kind, and how many bytes it has.
pub(crate) fn put_show(
    writer: &mut Writer,
    offset: u64,
    name: &str,
    bytes: u64,
) -> Result<(), AllocError>
    ensures tokens { OnOk result (writer.new.tokens ≡ writer.old.tokens ++ show_members offset name.now bytes) }
    ensures before { OnOk result (writer.new.before ≡ writer.old.before) }
{
    put_number(writer, "offset", offset)?;
    put_string(writer, "kind", name)?;
    put_number(writer, "bytes", bytes)
}

/// Appends the version, who takes part, and how many decide.
#[tactic(auto, unfolding(crate::specs::FrameObjects::party_members))]
fn put_parties(writer: &mut Writer, head: &Head) -> Result<(), AllocError>
    ensures tokens { OnOk result (writer.new.tokens ≡ writer.old.tokens ++ party_members head.now) }
    ensures before { OnOk result (writer.new.before ≡ writer.old.before) }
{
    put_number(writer, "version", u64::from(head.version))?;
    put_number(writer, "replicas", u64::from(head.replicas))?;
    put_number(writer, "verifiers", u64::from(head.verifiers))?;
    put_number(writer, "quorum", u64::from(head.quorum))
}

/// Appends how much there may be of the rest.
#[tactic(auto, unfolding(crate::specs::FrameObjects::extent_members))]
fn put_extent(writer: &mut Writer, head: &Head) -> Result<(), AllocError>
    ensures tokens { OnOk result (writer.new.tokens ≡ writer.old.tokens ++ extent_members head.now) }
    ensures before { OnOk result (writer.new.before ≡ writer.old.before) }
{
    put_number(writer, "window", u64::from(head.window))?;
    put_number(writer, "workers", u64::from(head.workers))?;
    put_number(writer, "customers", u64::from(head.customers))?;
    put_number(writer, "batches", u64::from(head.batches))
}

/// Appends the object of a header, with its line feed: `{"offset":0,"kind":"Header","bytes":32,"version":1,..}`.
/// The line is let go where memory is refused.
#[tactic(auto, unfolding(crate::specs::FrameObjects::header_object))]
pub fn push_header(line: Vec<u8>, head: &Head) -> Result<Vec<u8>, AllocError>
    ensures { IfOk result (λ new. new.items ≡ line.items ++ header_object head.now) }
{
    let mut writer = begin_line(line)?;
    put_show(&mut writer, 0, "Header", 32)?;
    put_parties(&mut writer, head)?;
    put_extent(&mut writer, head)?;
    end_line(writer)
}
