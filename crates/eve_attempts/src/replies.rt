//! What an attempt says of its records.

ghost use Rattle.std.specs.Prelude.{◌≡◌, ◌<◌, IsTrue, IfOk, length, map, replicate};
ghost use Rattle.std.specs.List.{list_all, AllByRecursion};
ghost use Rattle.eve_smallbank.specs.declared.request.Reply.TheVariants.{Done};
ghost use Rattle.eve_grammar.specs.Limits.{is_number, is_reply};
ghost use Rattle.eve_attempts.specs.ClosedAttempts.{access_noted};
ghost use Rattle.eve_attempts.specs.inner.RecordKeys.{replies_placed};

use eve_grammar::reply_fits;
use eve_smallbank::Reply;
use eve_stamps::AccessRecord;
use eve_write::AccessList;
use std::alloc::{AllocError, Global};

/// The replies, each at the index of its record.
pub fn replies_of(alloc: Global, records: &[AccessRecord]) -> Result<Vec<Reply>, AllocError>
    requires { AllByRecursion (λ r. r.index < length records.now) records.now }
    ensures placed { IfOk result (λ replies.
        replies.items ≡ replies_placed (replicate (length records.now) Done) records.now) }
    ensures limits { IfOk result (λ replies. IsTrue (list_all is_reply replies.items)) }
{
    let mut replies = Vec::new(alloc);
    replies.resize(records.len(), Reply::Done)?;
    for record in records {
        reply_fits(record.reply());
        replies[record.index() as usize] = record.reply();
    }
    Ok(replies)
}

/// How many entries the records have together.
fn entries_in(records: &[AccessRecord]) -> usize {
    let mut count: usize = 0;
    for record in records {
        count = count.saturating_add(record.entries().len());
    }
    count
}

/// The records as access frames have them.
pub fn accesses_of(alloc: Global, records: &[AccessRecord]) -> Result<AccessList, AllocError>
    ensures { IfOk result (λ accesses. accesses ≡ map access_noted records.now) }
{
    let mut accesses = AccessList::with_capacity(alloc, records.len(), entries_in(records))?;
    for record in records {
        accesses.push(
            record.worker(),
            record.place(),
            record.index(),
            record.entries(),
        )?;
    }
    Ok(accesses)
}

/// A view lies within the limits of the format as it stands.
pub fn view_fits(view: u32)
    ensures { IsTrue (is_number 4 view) }
{
    let _view = view;
}
