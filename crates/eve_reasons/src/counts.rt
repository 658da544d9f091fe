//! What a trace without a fault has.

ghost use Rattle.std.specs.Prelude.{◌≡◌, map, slice_get};
ghost use Rattle.std.specs.Option.{option_map};
ghost use Rattle.eve_reasons.specs.Lines.{and_line, and_lines, ended};
ghost use Rattle.eve_reasons.specs.Counts.{count_lines, replica_line};

use crate::lines::Lines;
use crate::word::Value::{Nothing, Number};
use crate::word::Word;
use eve_evidence::{Counts, REPLICAS, ReplicaCounts};
use eve_lines::Line;

/// Says what a replica did: `replica 0: 1 committed, 0 taken over, 0 discarded, 0 open, 0 rollbacks`.
fn say_replica(lines: &mut Lines, replica: usize, did: &ReplicaCounts)
    ensures { lines.new ≡ and_line (replica_line (replica, did.now)) lines.old }
{
    lines.say(&[
        Word("replica ", Number(replica as u64)),
        Word(": ", Number(did.committed as u64)),
        Word(" committed, ", Number(did.transferred as u64)),
        Word(" taken over, ", Number(did.discarded as u64)),
        Word(" discarded, ", Number(did.open as u64)),
        Word(" open, ", Number(did.rollbacks as u64)),
        Word(" rollbacks", Nothing),
    ]);
}

/// Says what a trace without a fault has: its requests, and then what each replica did.
pub(crate) fn say_counts(lines: &mut Lines, counts: &Counts)
    ensures { lines.new ≡ and_lines (count_lines counts.now) lines.old }
{
    lines.say(&[Word("requests: ", Number(counts.requests as u64))]);
    let replicas = &counts.replicas[..(counts.many as usize).min(REPLICAS)];
    'replicas: for i in 0..replicas.len() {
        say_replica(lines, i, &replicas[i]);
    }
}

/// Line `i`, from 0, of what a trace without a fault has, with its line feed. None, where there is no such line.
///
/// docs/USING.md, "What `explain` prints". The first has the requests, and behind it comes one for each replica.
pub fn count_line(i: usize, counts: &Counts) -> Option<Line>
    ensures { option_map (λ line. line.items) result ≡ slice_get (map ended (count_lines counts.now)) i }
{
    let mut lines = Lines::keeping(i);
    say_counts(&mut lines, counts);
    lines.kept()
}
