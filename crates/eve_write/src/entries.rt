//! Which entries lie within the limits of a trace.

ghost use Rattle.std.specs.Prelude.{◌≡◌};
ghost use Rattle.std.specs.List.{list_all};
ghost use Rattle.eve_grammar.specs.Limits.{is_entry};

use eve_grammar::MOST_VERSIONS;
use eve_smallbank::{Entry, UpToThree};

/// Whether the entry is of one of these rows, at a version within the limit, and leaves what it saw if it is a read.
fn is_entry(entry: &Entry, rows: usize) -> bool
    ensures { result ≡ is_entry rows entry.now }
{
    let (seen, after) = (entry.seen.get(), entry.after.get());
    (entry.row.number() as usize) < rows
        && entry.version <= MOST_VERSIONS
        && (entry.kind.is_write() || after == seen)
}

/// Whether each entry is of one of these rows, at a version within the limit, and leaves what it saw if it is a read.
///
/// docs/MODEL.md, "Entries" and "Limits".
pub fn are_entries(entries: &UpToThree<Entry>, rows: usize) -> bool
    ensures { result ≡ list_all (is_entry rows) entries.now }
{
    let count = entries.len();
    for place in 0..3 {
        if place < count && !is_entry(&entries.at(place), rows) {
            return false;
        }
    }
    true
}

/// As `are_entries`, of entries that stand in a list.
pub(crate) fn each_entry_fits(entries: &[Entry], rows: usize) -> bool
    ensures { result ≡ list_all (is_entry rows) entries.now }
{
    for entry in entries {
        if !is_entry(entry, rows) {
            return false;
        }
    }
    true
}
