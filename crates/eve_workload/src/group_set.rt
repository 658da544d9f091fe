//! Sets of groups.

ghost use Rattle.std.specs.Prelude.{◌≡◌, ◌<◌, ◌==◌, ◌||◌, ℕ, true, false};
ghost use Rattle.eve_workload.specs.inner.GroupSets.{has};

use eve_grammar::MOST_REQUESTS;

/// Some of 256 groups, which are numbered from 0: a bit for each.
#[derive(Clone, Copy)]
pub(crate) struct GroupSet {
    words: [u64; 4],
}

impl GroupSet {
    /// No group.
    pub(crate) fn none() -> GroupSet
        ensures { (group : ℕ) → has result group ≡ false }
    {
        GroupSet { words: [0; 4] }
    }

    /// Takes a group in.
    pub(crate) fn add(&mut self, group: u16)
        requires { group < MOST_REQUESTS }
        ensures { (other : ℕ) → has self.new other ≡ (has self.old other || (other == group)) }
    {
        self.words[group as usize / 64] |= 1 << (group % 64);
    }

    /// Takes other groups in.
    pub(crate) fn add_all(&mut self, others: &GroupSet)
        ensures { (group : ℕ) → has self.new group ≡ (has self.old group || has others.now group) }
    {
        for place in 0..4 {
            self.words[place] |= others.words[place];
        }
    }

    /// The first group that isn't among them, or 256.
    pub(crate) fn first_absent(&self) -> u16
        ensures absent { has self.now result ≡ false }
        ensures before { (group : ℕ) → group < result → has self.now group ≡ true }
    {
        let mut before = 0;
        for place in 0..4 {
            let word = self.words[place];
            if word != u64::MAX {
                return before + word.trailing_ones() as u16;
            }
            before += 64;
        }
        before
    }
}
