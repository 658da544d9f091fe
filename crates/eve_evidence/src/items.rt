//! Items of lists.

ghost use Rattle.std.specs.Prelude.{◌≡◌, ◌<◌, length, slice_get, Some};

/// The item at this place of a list.
pub fn item_at<T: Copy>(items: &[T], i: usize) -> T
    requires { i < length items.now }
    ensures { slice_get items.now i ≡ Some result }
{
    items[i]
}
