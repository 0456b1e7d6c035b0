//! The sizes that a book can have.

/// The most choosers, and the most items.
pub const MOST: usize = 432;

/// The most places: one for each chooser and item.
pub const PLACES: usize = 6912;
