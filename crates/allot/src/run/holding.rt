//! What a brew does with the takers who apply to it.

ghost use Rattle.std.specs.Prelude.{◌≡◌, ◌<◌, length, nat_lt, slice_index};
ghost use Rattle.acceptance.specs.Running.{holds};
ghost use Rattle.allot.specs.Runs.{HoldsMore, Waiting, counts, in_line, lasts};

use super::Run;
use choices::choice::Choice;

// Takers and brews are plain numbers: that they are within the arrays is asked for, as of an index.
impl Run {
    /// Whether a brew holds a taker.
    pub(crate) fn holds(&self, stands: &[u8], brew: usize, taker: usize) -> bool
        requires { (taker < length stands.now) × (taker < 432) }
        ensures { result ≡ holds stands.now self.now.waiting brew taker }
    {
        usize::from(stands[taker]) == brew && !self.waiting[taker]
    }

    /// Whether a brew holds fewer takers than it has lots.
    pub(crate) fn has_lot(&self, choice: &Choice, brew: usize) -> bool
        requires { brew < 17 }
        ensures { result ≡ nat_lt (slice_index (counts self.now) brew) choice.now.figures.lots }
    {
        usize::from(self.held[brew].count) < choice.figures().lots()
    }

    /// Whether the last taker that a brew holds is behind a place of its order.
    pub(crate) fn is_behind(&self, brew: usize, place: u16) -> bool
        requires { brew < 17 }
        ensures { result ≡ nat_lt place (slice_index (lasts self.now) brew) }
    {
        self.held[brew].last.is_some_and(|last| place < last)
    }

    /// Has a brew hold one taker more, at this place of its order.
    pub(crate) fn hold(&mut self, brew: usize, taker: usize, place: u16)
        requires { (taker < 432) × (brew < 17) × (slice_index (counts self.old) brew < 48) }
        ensures { HoldsMore brew taker place self.old self.new }
    {
        self.waiting[taker] = false;
        let held = &mut self.held[brew];
        held.count += 1;
        held.last = held.last.max(Some(place));
    }

    /// Puts a taker behind all who wait.
    pub(crate) fn wait(&mut self, taker: usize)
        requires { (taker < 432) × (length (in_line self.old) < 432) }
        ensures { Waiting taker self.old self.new }
    {
        self.line.put(&mut self.slots, taker as u16).unwrap();
    }
}
