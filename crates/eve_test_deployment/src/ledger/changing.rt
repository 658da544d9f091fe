//! How the records of an attempt are changed, so that they are none.

use crate::ledger::meeting::Meeting;
use eve_accounts::Cents;
use eve_smallbank::UpToThree;
use eve_stamps::HeldRow;
use eve_testing::Text;

/// A change of the records of an attempt.
#[derive(Clone, Copy)]
pub enum Change {
    /// The last record is left out.
    LeftOut,
    /// The last record is there once more.
    OnceMore,
    /// The last record is of the first record's request, and has its index.
    Twice,
    /// The last record has the index after the last request.
    IndexPast,
    /// The last record is of the first record's request, and has its own index.
    OtherRequest,
    /// The last record is of the worker after the last.
    WorkerPast,
    /// The last record is the first of worker 1.
    SecondWorker,
    /// The last record has the place after its own.
    PlaceSkipped,
    /// The entry at this place of the last record sees the version after its own.
    OtherVersion(usize),
    /// The entry at this place of the last record sees one cent more.
    OtherValue(usize),
    /// The ticks fall where they rose.
    TicksFall,
    /// All ticks are equal.
    TicksEqual,
    /// The ticks rise to the greatest that there is.
    TicksLate,
}

/// Beside changes of records: the ledger has the rows of the first customer alone.
pub const FEWER_ROWS: &str = "fewer-rows";

/// The ledger was rolled back, so that the attempt is serial.
pub const SERIAL: &str = "serial";

/// The commits of the section are passed over.
pub const UNCOMMITTED: &str = "uncommitted";

/// The ledger is of version 2: its tokens are compared with those of a tree made from nothing, its root after each step
/// with that of a new tree.
pub const MERKLE: &str = "merkle";

/// A second ledger gets by a transfer what the first one commits.
pub const TRANSFERRED: &str = "taken-over";

/// A change, and the word that names it.
struct Word {
    word: &'static str,
    change: Change,
}

static WORDS: [Word; 15] = [
    Word {
        word: "left-out",
        change: Change::LeftOut,
    },
    Word {
        word: "once-more",
        change: Change::OnceMore,
    },
    Word {
        word: "twice",
        change: Change::Twice,
    },
    Word {
        word: "index-past",
        change: Change::IndexPast,
    },
    Word {
        word: "other-request",
        change: Change::OtherRequest,
    },
    Word {
        word: "worker-past",
        change: Change::WorkerPast,
    },
    Word {
        word: "second-worker",
        change: Change::SecondWorker,
    },
    Word {
        word: "place-skipped",
        change: Change::PlaceSkipped,
    },
    Word {
        word: "first-version",
        change: Change::OtherVersion(0),
    },
    Word {
        word: "second-version",
        change: Change::OtherVersion(1),
    },
    Word {
        word: "first-value",
        change: Change::OtherValue(0),
    },
    Word {
        word: "second-value",
        change: Change::OtherValue(1),
    },
    Word {
        word: "ticks-fall",
        change: Change::TicksFall,
    },
    Word {
        word: "ticks-equal",
        change: Change::TicksEqual,
    },
    Word {
        word: "ticks-late",
        change: Change::TicksLate,
    },
];

impl Change {
    /// The change that a word names.
    pub fn named(word: &str) -> Option<Change> {
        for named in &WORDS {
            if named.word == word {
                return Some(named.change);
            }
        }
        None
    }

    /// What was met, with this change, of a replica with `workers` workers.
    pub fn apply(self, met: &mut Vec<Meeting>, workers: u8, said: &mut Text) {
        let Some(last) = met.pop() else {
            return;
        };
        let first = *met.first().unwrap_or(&last);
        match self {
            Change::LeftOut => {}
            Change::OnceMore => {
                said.stored(met.push(last));
                said.stored(met.push(last));
            }
            _ => said.stored(met.push(self.changed(&first, &last, workers))),
        }
        self.set_ticks(met.as_mut_slice());
    }

    /// The last of what was met, with this change.
    fn changed(self, first: &Meeting, last: &Meeting, workers: u8) -> Meeting {
        let mut met = *last;
        match self {
            Change::Twice => {
                met.asked = first.asked;
                met.stamp.index = first.stamp.index;
            }
            Change::IndexPast => met.stamp.index = last
                .stamp
                .index
                .max(first.stamp.index)
                .saturating_add(1),
            Change::OtherRequest => met.asked = first.asked,
            Change::WorkerPast => {
                met.stamp.worker = workers;
                met.stamp.place = 0;
            }
            Change::SecondWorker => {
                met.stamp.worker = 1;
                met.stamp.place = 0;
            }
            Change::PlaceSkipped => met.stamp.place = last.stamp.place.saturating_add(1),
            Change::OtherVersion(place) => met.seen = with_more(&last.seen, place, 1, 0),
            Change::OtherValue(place) => met.seen = with_more(&last.seen, place, 0, 1),
            _ => {}
        }
        met
    }

    /// Changes the ticks, which rise from 0 at first.
    fn set_ticks(self, met: &mut [Meeting]) {
        let count = met.len() as u64;
        for meeting in met.iter_mut() {
            let tick = meeting.stamp.tick;
            meeting.stamp.tick = match self {
                Change::TicksFall => u64::MAX - tick,
                Change::TicksEqual => 0,
                Change::TicksLate => u64::MAX - count.saturating_sub(tick).saturating_sub(1),
                _ => tick,
            };
        }
    }
}

/// The rows, with these versions and cents added at this place, if there is one.
fn with_more(
    seen: &UpToThree<HeldRow>,
    place: usize,
    versions: u64,
    cents: i64,
) -> UpToThree<HeldRow> {
    let mut other = UpToThree::new();
    for at in 0..seen.len() {
        let mut row = seen.at(at);
        if at == place {
            row.version = row.version.saturating_add(versions);
            row.value = Cents::new(row.value.get().saturating_add(cents)).unwrap_or(Cents::ZERO);
        }
        if other.len() < 3 {
            other.push(row);
        }
    }
    other
}
