//! The limits of a round's figures.

/// The most brews of a round.
pub const BREWS: usize = 16;

/// The most brews that a round opens.
pub const OPENED: usize = 9;

/// The most lots of a brew.
pub const LOTS: usize = 48;
