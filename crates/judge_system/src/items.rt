//! Items of a list by their places.
ghost use Rattle.std.specs.Prelude.{◌≡◌, ◌<◌, Some, length, slice_get};

/// The item at a place. A struct that is read by an index has no name in the proof of a loop, but the result of this
/// call has one.
pub fn item_at<T: Copy>(items: &[T], place: usize) -> T
    requires { place < length items.now }
    ensures { slice_get items.now place ≡ Some result }
{
    items[place]
}
