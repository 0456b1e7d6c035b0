//! A set of a round's brews.

ghost use Rattle.std.specs.Prelude.{◌≡◌, ◌^◌, ◌<◌, ◌≤◌, IsTrue, IsFalse, false, []};

use crate::figures::Figures;

/// Some of the brews of a round, kept as the bits of one number, the highest of which is for brew 1.
#[derive(Clone, Copy)]
pub(crate) struct BrewSet {
    pub(crate) brews: usize,
    pub(crate) bits: u32,
    ghost few_brews: { brews ≤ 16 },
    ghost inside: { bits < 2 ^ brews },
}

impl BrewSet {
    ghost use Rattle.choices.specs.BrewSets.{Added, is_new, members};
    ghost use Rattle.fair.specs.Choices.{among};

    /// None of the brews of a round.
    #[tactic(auto, using(crate::proofs::Sets::none_in_zero))]
    pub(crate) fn new(figures: Figures) -> Self
        ensures round { result.brews ≡ figures.brews }
        ensures none { members result ≡ [] }
    {
        BrewSet {
            brews: figures.brews(),
            bits: 0,
        }
    }

    /// Whether a brew is one of the set: asked of any number.
    #[tactic(auto, using(crate::proofs::Sets::among_read, crate::proofs::Sets::among_outside))]
    pub(crate) fn has(&self, brew: usize) -> bool
        ensures { result ≡ among (members self.now) brew }
    {
        (1..=self.brews).contains(&brew) && (self.bits >> (self.brews - brew)) & 1 == 1
    }

    /// The set with a brew of the round that it had not.
    #[tactic(auto, using(crate::proofs::Adding::insert_fits))]
    fn with(self, brew: usize) -> Self
        requires low { 1 ≤ brew }
        requires high { brew ≤ self.brews }
        requires new { among (members self) brew ≡ false }
        ensures { Added self brew result }
    {
        BrewSet {
            brews: self.brews,
            bits: self.bits | 1 << (self.brews - brew),
        }
    }

    /// Adds a brew of the round that the set had not, and tells whether it did.
    pub(crate) fn insert(&mut self, brew: usize) -> bool
        ensures told { result ≡ is_new self.old brew }
        ensures added { IsTrue result → Added self.old brew self.new }
        ensures kept { IsFalse result → self.new ≡ self.old }
    {
        let new = (1..=self.brews).contains(&brew) && !self.has(brew);
        if new {
            *self = self.with(brew);
        }
        new
    }
}
