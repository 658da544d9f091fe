//! Verdicts as JSON: an object in a line.

ghost use Rattle.std.specs.Prelude.{◌≡◌, ◌++◌, OnOk, IfOk};
ghost use Rattle.eve_tool.specs.Objects.{fault_members, file_member, replica_member, verdict_members};
ghost use Rattle.eve_tool.specs.Objects.{verdict_object, yes_members};

use eve_audit::{Summary, Verdict};
use eve_objects::{begin_line, end_line, put_number, put_string};
use eve_views::Fault;
use json::Writer;
use std::alloc::{AllocError, Global};

/// Appends the members of a yes: how many replicas and batches there are, and the least last committed number over the
/// replicas.
fn put_yes(writer: &mut Writer, summary: &Summary) -> Result<(), AllocError>
    ensures tokens { OnOk result (writer.new.tokens ≡ writer.old.tokens ++ yes_members summary.now) }
    ensures before { OnOk result (writer.new.before ≡ writer.old.before) }
{
    put_string(writer, "verdict", "yes")?;
    put_number(writer, "replicas", u64::from(summary.replicas))?;
    put_number(writer, "batches", u64::from(summary.batches))?;
    put_number(writer, "committed", u64::from(summary.committed))
}

/// Appends the replica in whose section a fault stands, if any.
fn put_replica(writer: &mut Writer, replica: Option<u8>) -> Result<(), AllocError>
    ensures tokens { OnOk result (writer.new.tokens ≡ writer.old.tokens ++ replica_member replica) }
    ensures before { OnOk result (writer.new.before ≡ writer.old.before) }
{
    match replica {
        Some(replica) => put_number(writer, "replica", u64::from(replica)),
        None => Ok(()),
    }
}

/// Appends the members of a no: the fault's code, the byte at which it stands, and the replica in whose section that
/// is, if any.
fn put_fault(alloc: Global, writer: &mut Writer, fault: &Fault) -> Result<(), AllocError>
    ensures tokens { OnOk result (writer.new.tokens ≡ writer.old.tokens ++ fault_members fault.now) }
    ensures before { OnOk result (writer.new.before ≡ writer.old.before) }
{
    let number = fault.code.number();
    let code = format!(in alloc; "F{number}")?;
    put_string(writer, "verdict", "no")?;
    put_string(writer, "code", code.as_str())?;
    put_string(writer, "name", fault.code.name())?;
    put_number(writer, "offset", fault.offset)?;
    put_replica(writer, fault.replica)
}

/// Appends the members of a verdict.
pub(crate) fn put_verdict(
    alloc: Global,
    writer: &mut Writer,
    verdict: &Verdict,
) -> Result<(), AllocError>
    ensures tokens { OnOk result (writer.new.tokens ≡ writer.old.tokens ++ verdict_members verdict.now) }
    ensures before { OnOk result (writer.new.before ≡ writer.old.before) }
{
    match verdict {
        Verdict::Yes(summary) => put_yes(writer, summary),
        Verdict::No(fault) => put_fault(alloc, writer, fault),
    }
}

/// Appends the name of a file, if there is one.
fn put_file(writer: &mut Writer, file: Option<&str>) -> Result<(), AllocError>
    ensures tokens { OnOk result (writer.new.tokens ≡ writer.old.tokens ++ file_member file.entry) }
    ensures before { OnOk result (writer.new.before ≡ writer.old.before) }
{
    match file {
        Some(name) => put_string(writer, "file", name),
        None => Ok(()),
    }
}

/// The object of a verdict, with its line feed; the first member is the file, if one is named.
pub(crate) fn verdict_object(
    alloc: Global,
    file: Option<&str>,
    verdict: &Verdict,
) -> Result<Vec<u8>, AllocError>
    ensures { IfOk result (λ line. line.items ≡ verdict_object (file_member file.entry) verdict.now) }
{
    let mut writer = begin_line(Vec::new(alloc))?;
    put_file(&mut writer, file)?;
    put_verdict(alloc, &mut writer, verdict)?;
    end_line(writer)
}
