//! What the replicas' sections tell, read again.

ghost use Rattle.std.specs.Prelude.{◌≡◌, ◌<◌, IfOk, length};
ghost use Rattle.eve_views.specs.Code.{phase_of};
ghost use Rattle.eve_history.specs.SectionHistory.{section_history, section_histories};
ghost use Rattle.eve_explain.specs.inner.Behind.{IsFirstInTrace, IsBehind};

use eve_grammar::laws::bytes_spell_one_trace;
use eve_history::History;
use eve_views::{CheckFault, Fault, Trace};
use std::alloc::{AllocError, Global};

/// What a replica's section tells, where the first fault of the trace is one that stands only behind a right section of
/// this replica.
pub(crate) fn history_of<'a>(
    alloc: Global,
    trace: &Trace<'a>,
    fault: &Fault,
    e: u8,
) -> Result<History<'a>, AllocError>
    requires first { IsFirstInTrace trace.now fault.now }
    requires behind { IsBehind 3 fault.now e }
    requires there { e < length trace.now.sections }
    ensures history { IfOk result (λ h. h ≡ section_history trace.now e) }
    ensures replica { IfOk result (λ h. h.replica ≡ e) }
{
    bytes_spell_one_trace();
    match History::of(alloc, trace, e) {
        Ok(history) => Ok(history),
        Err(CheckFault::Found(_)) => unreachable!(),
        Err(CheckFault::Memory) => Err(AllocError),
    }
}

/// What all replicas' sections tell, where the first fault of the trace is one of replicas together.
pub(crate) fn histories_of<'a>(
    alloc: Global,
    trace: &Trace<'a>,
    fault: &Fault,
) -> Result<Vec<History<'a>>, AllocError>
    requires first { IsFirstInTrace trace.now fault.now }
    requires together { 7 < phase_of fault.now.code }
    ensures { IfOk result (λ hs. hs.items ≡ section_histories trace.now) }
{
    trace.recall_limits();
    let mut histories = Vec::new(alloc);
    for e in 0..trace.section_count() {
        let history = history_of(alloc, trace, fault, e)?;
        histories.push(history)?;
    }
    Ok(histories)
}
