//! What came of the cases, told.

use eve_floor::ExecFault;
use eve_smallbank::Reply;
use eve_stamps::AccessRecord;
use eve_testing::Text;

/// Tells what a call answered.
pub fn tell_answer(answer: Result<(), ExecFault>, text: &mut Text) {
    text.words(match answer {
        Ok(()) => " ok",
        Err(ExecFault::Full) => " Full",
        Err(ExecFault::Spent) => " Spent",
        Err(ExecFault::NoRow) => " NoRow",
        Err(ExecFault::TickOrder) => " TickOrder",
        Err(ExecFault::Worn) => " Worn",
        Err(ExecFault::Memory) => return text.refused(),
    });
}

/// Whether a call did what it was asked for; that it was refused memory is kept.
pub fn is_done(answer: Result<(), ExecFault>, text: &mut Text) -> bool {
    match answer {
        Ok(()) => true,
        Err(ExecFault::Memory) => {
            text.refused();
            false
        }
        Err(_) => false,
    }
}

/// Tells whether it is so.
pub fn tell_whether(is_so: bool, text: &mut Text) {
    text.words(if is_so { " yes" } else { " no" });
}

/// Tells the record, or that there is none.
pub fn tell_record(record: Option<AccessRecord>, text: &mut Text) {
    match record {
        Some(record) => {
            tell_noted(&record, text);
            drop(record);
        }
        None => text.words("; nothing"),
    }
}

/// Tells who made it, at which place, index and tick, the kind of its reply, and its entries.
fn tell_noted(record: &AccessRecord, text: &mut Text) {
    text.value("; worker ", record.worker());
    text.value(" place ", record.place());
    text.value(" index ", record.index());
    text.value(" tick ", record.tick());
    text.words(match record.reply() {
        Reply::Done => " done",
        Reply::Total(_) => " total",
        Reply::Aborted(_) => " aborted",
    });
    tell_entries(record, text);
}

/// Tells of each entry its row, the version and the value that it saw, and the value after it.
pub fn tell_entries(record: &AccessRecord, text: &mut Text) {
    let entries = record.entries();
    if entries.is_empty() {
        text.words(", no entry");
    }
    for at in 0..entries.len() {
        let entry = entries.at(at);
        text.value(", row ", entry.row.number());
        text.value(" version ", entry.version);
        text.value(" saw ", entry.seen.get());
        text.value(" left ", entry.after.get());
    }
}
