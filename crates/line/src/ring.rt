//! Where a waiting line stands in the slice that holds its elements.

mod waiting;

ghost use Rattle.std.specs.Prelude.{◌≤◌};

/// A waiting line over a slice of `capacity` places: `count` elements from the
/// place `head` on, going round at the end of the slice.
///
/// Over a slice of any other length the line is empty.
#[derive(Clone, Copy)]
pub struct Line {
    capacity: usize,
    head: usize,
    count: usize,
    ghost starts: { head ≤ capacity },
    ghost fits: { count ≤ capacity },
}
