//! Which parts lie within the limits of a trace.

ghost use Rattle.std.specs.Prelude.{◌≡◌, Bool};
ghost use Rattle.std.specs.List.{list_all};
ghost use Rattle.eve_grammar.specs.Limits.{row_count, is_restore, is_reply};
ghost use Rattle.eve_grammar.specs.declared.head.Head.{Head};

use eve_grammar::{Head, MOST_VERSIONS, Restore};
use eve_smallbank::Reply;

/// What a trace under a header may hold or not.
pub(crate) trait Judge {
    // Whether it lies within the limits.
    ghost right: { Head → Self → Bool };

    /// Whether it lies within the limits.
    fn is_right(&self, head: &Head) -> bool
        ensures { result ≡ right head.now self.now };
}

/// Whether all of them lie within the limits.
pub(crate) fn all_right<T: Judge>(items: &[T], head: &Head) -> bool
    ensures { result ≡ list_all (T.right head.now) items.now }
{
    for item in items {
        if !item.is_right(head) {
            return false;
        }
    }
    true
}

/// How many rows a trace with this header has.
pub(crate) fn row_count(head: &Head) -> usize
    ensures { result ≡ row_count head.now }
{
    2 * head.customers as usize
}

impl Judge for Restore {
    ghost right = { λ h r. is_restore (row_count h) r };

    fn is_right(&self, head: &Head) -> bool {
        let _value = self.value.get();
        (self.row.number() as usize) < row_count(head) && self.version <= MOST_VERSIONS
    }
}

impl Judge for Reply {
    ghost right = { λ h r. is_reply r };

    /// A total lies within the limits as it stands.
    fn is_right(&self, _head: &Head) -> bool {
        match *self {
            Reply::Done => true,
            Reply::Total(_total) => true,
            Reply::Aborted(_) => true,
        }
    }
}
