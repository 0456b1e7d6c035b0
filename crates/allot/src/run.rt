//! A run of deferred acceptance.

ghost use Rattle.std.specs.Prelude.{◌≡◌, length};

use choices::limits::BREWS;
use line::Line;
use orders::limits::MOST;

mod applying;
mod beginning;
mod holding;

/// A place for each brew from 1 on; that at 0 is not used.
const BY_BREW: usize = BREWS + 1;

/// What a brew holds.
#[derive(Clone, Copy)]
struct Held {
    /// How many takers.
    count: u16,
    /// The place of the last of them in the order of the brew.
    last: Option<u16>,
}

/// Who waits, and what each brew holds. Every taker stands at a brew; those who wait in line have yet to be considered
/// there, and the others are held.
#[derive(Drop)]
pub(crate) struct Run {
    /// The takers, by index, who wait.
    line: Line,
    // The line is handed its slots at each call.
    slots: [u16; MOST],
    /// Whether a taker waits.
    // Beside the list of where the takers stand, which is lent and holds brews alone.
    waiting: [bool; MOST],
    held: [Held; BY_BREW],
    ghost room: { length slots ≡ 432 },
    ghost marks: { length waiting ≡ 432 },
    ghost each: { length held ≡ 17 },
}
