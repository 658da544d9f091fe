//! The lines that the program prints of a verdict.

ghost use Rattle.std.specs.Prelude.{◌≡◌, ◌++◌, IfOk, OnOk};
ghost use Rattle.std.specs.String.{string_bytes};
ghost use Rattle.eve_tool.specs.Audit.{verdict_text};
ghost use Rattle.eve_tool.specs.Lines.{fault_line, verdict_line, yes_line};

use crate::objects::verdict_object;
use eve_audit::{Summary, Verdict};
use eve_tool_arguments::Style;
use eve_views::Fault;
use std::alloc::{AllocError, Global};

/// What is printed of a verdict in this style.
pub(crate) fn verdict_text(
    alloc: Global,
    style: Style,
    verdict: &Verdict,
) -> Result<Vec<u8>, AllocError>
    ensures { IfOk result (λ text. text.items ≡ verdict_text style verdict.now) }
{
    match style {
        Style::Plain => {
            let mut line = String::new(alloc);
            push_verdict_line(&mut line, verdict)?;
            Ok(line.into_bytes())
        }
        Style::Json => verdict_object(alloc, None, verdict),
    }
}

/// Appends the line that says yes: how many replicas and batches there are, and the least last
/// committed number over the replicas.
#[tactic(auto, unfolding(crate::specs::Lines::yes_line))]
fn push_yes_line(text: &mut String, summary: &Summary) -> Result<(), AllocError>
    ensures { OnOk result (string_bytes text.new ≡ string_bytes text.old ++ yes_line summary.now) }
{
    let replicas = summary.replicas;
    let batches = summary.batches;
    let committed = summary.committed;
    writeln!(
        text,
        "yes: {replicas} replicas, {batches} batches, {committed} committed"
    )
}

/// Appends the line of a verdict.
pub(crate) fn push_verdict_line(text: &mut String, verdict: &Verdict) -> Result<(), AllocError>
    ensures { OnOk result (string_bytes text.new ≡ string_bytes text.old ++ verdict_line verdict.now) }
{
    match verdict {
        Verdict::Yes(summary) => push_yes_line(text, summary),
        Verdict::No(fault) => push_fault_line(text, fault),
    }
}

/// Appends the line that says no: the fault's code, the byte at which it stands, and the replica in
/// whose section that is, if any.
#[tactic(auto, unfolding(crate::specs::Lines::fault_line))]
fn push_fault_line(text: &mut String, fault: &Fault) -> Result<(), AllocError>
    ensures { OnOk result (string_bytes text.new ≡ string_bytes text.old ++ fault_line fault.now) }
{
    let number = fault.code.number();
    let name = fault.code.name();
    let offset = fault.offset;
    match fault.replica {
        Some(replica) => writeln!(
            text,
            "no: F{number} {name} at byte {offset}, replica {replica}"
        ),
        None => writeln!(text, "no: F{number} {name} at byte {offset}"),
    }
}
