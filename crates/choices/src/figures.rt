//! The figures of a round.

ghost use Rattle.std.specs.Prelude.{◌≡◌, ◌*◌, ◌≤◌};

use crate::limits::{BREWS, LOTS, OPENED};

/// How many brews a round has, how many of them it opens, the lots of an open brew, and the takers: one for each lot.
#[derive(Clone, Copy)]
pub struct Figures {
    brews: usize,
    opened: usize,
    lots: usize,
    takers: usize,
    ghost few_brews: { brews ≤ 16 },
    ghost some_opened: { 1 ≤ opened },
    ghost few_opened: { opened ≤ 9 },
    ghost enough_brews: { opened ≤ brews },
    ghost some_lots: { 1 ≤ lots },
    ghost few_lots: { lots ≤ 48 },
    ghost a_lot_each: { takers ≡ lots * opened },
    ghost few_takers: { takers ≤ 432 },
}

impl Figures {
    ghost use Rattle.choices.specs.Rounds.{figures_of, Made};
    ghost use Rattle.fair.specs.Markets.{InLimits};

    /// The figures of a round with so many brews, of which so many are opened, with so many lots each; none where one of
    /// the three is outside its limits.
    pub fn new(brews: usize, opened: usize, lots: usize) -> Option<Figures>
        ensures { Made brews opened lots result }
    {
        if !(1..=BREWS).contains(&brews) || !(1..=OPENED).contains(&opened) || opened > brews {
            return None;
        }
        if !(1..=LOTS).contains(&lots) {
            return None;
        }
        Some(Figures {
            brews,
            opened,
            lots,
            takers: lots * opened,
        })
    }

    /// States that the figures are within the limits.
    pub fn in_limits(&self)
        ensures { InLimits (figures_of self.now) }
    {}

    /// The number of brews.
    pub fn brews(&self) -> usize
        ensures { result ≡ (figures_of self.now).brews }
    {
        self.brews
    }

    /// How many brews are opened.
    pub fn opened(&self) -> usize
        ensures { result ≡ (figures_of self.now).opened }
    {
        self.opened
    }

    /// The lots of an open brew.
    pub fn lots(&self) -> usize
        ensures { result ≡ (figures_of self.now).lots }
    {
        self.lots
    }

    /// The number of takers.
    pub fn takers(&self) -> usize
        ensures { result ≡ (figures_of self.now).takers }
    {
        self.takers
    }
}
