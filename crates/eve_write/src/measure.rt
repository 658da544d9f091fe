//! How long parts are in bytes, alone and together. Where a length is above 2^64 - 1, that number
//! stands for it.

ghost use Rattle.std.specs.Prelude.{◌≡◌, ◌-◌, ◌^◌, ℕ, Bool, IsTrue, min};
ghost use Rattle.std.specs.List.{list_all, sum_by};

/// What takes a number of bytes.
pub(crate) trait Measure {
    // How many bytes.
    ghost size: { Self → ℕ };

    // Whether `text_len` may be called of the value: lengths fit their fields, numbers lie in their ranges, a vote for
    // a rollback has zeros.
    ghost fits: { Self → Bool };

    /// How many bytes it takes.
    fn text_len(&self) -> u64
        requires { IsTrue (fits self.now) }
        ensures { result ≡ min (size self.now) (2 ^ 64 - 1) };
}

/// How many bytes all of them take.
pub(crate) fn len_of_each<T: Measure>(items: &[T]) -> u64
    requires { IsTrue (list_all T.fits items.now) }
    ensures { result ≡ min (sum_by T.size items.now) (2 ^ 64 - 1) }
{
    let mut len: u64 = 0;
    for item in items {
        len = len.saturating_add(item.text_len());
    }
    len
}
