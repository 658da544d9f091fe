//! Whether records may stand as an attempt's access frames.

ghost use Rattle.std.specs.Prelude.{◌≡◌, ◌≤◌, [], map, length};
ghost use Rattle.eve_attempts.specs.ClosedAttempts.{access_noted, are_right_records};

use eve_grammar::MOST_REQUESTS;
use eve_stamps::AccessRecord;

/// Whether each record is of one of `workers` workers and of one of `count` indexes, has an index that none before it
/// has, and has its worker's next place.
///
/// docs/MODEL.md, "Section state, fate".
pub fn are_right_accesses(workers: u8, count: usize, records: &[AccessRecord]) -> bool
    requires few { length records.now ≤ MOST_REQUESTS }
    requires count { count ≤ MOST_REQUESTS }
    ensures { result ≡ are_right_records workers count [] (map access_noted records.now) }
{
    let mut seen = [false; MOST_REQUESTS];
    let mut places = [0; MOST_REQUESTS];
    for record in records {
        let worker = record.worker() as usize;
        let index = record.index() as usize;
        if worker >= workers as usize || index >= count || seen[index] {
            return false;
        }
        if record.place() != places[worker] {
            return false;
        }
        seen[index] = true;
        places[worker] += 1;
    }
    true
}
