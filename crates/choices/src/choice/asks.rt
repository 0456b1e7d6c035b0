//! Asking a choice.

ghost use Rattle.std.specs.Prelude.{◌≡◌};
ghost use Rattle.choices.specs.Chosen.{brews_of};
ghost use Rattle.choices.specs.Rounds.{figures_of};
ghost use Rattle.fair.specs.Choices.{among, IsChoice};

use crate::brew_set::BrewSet;
use crate::choice::Choice;
use crate::figures::Figures;

impl Choice {
    /// The figures of the round.
    pub fn figures(&self) -> Figures
        ensures { result ≡ self.now.figures }
    {
        self.figures
    }

    /// Whether a brew is one of the choice: asked of any number.
    pub fn has(&self, brew: usize) -> bool
        ensures { result ≡ among (brews_of self.now) brew }
    {
        // A choice is a record of plain fields, of which a set is made for the question.
        let set = BrewSet {
            brews: self.figures.brews(),
            bits: self.bits,
        };
        set.has(brew)
    }

    /// States that the brews of a choice are as many as are to be opened, each from 1 to the number of brews, and no two
    /// the same.
    #[tactic(auto, using(crate::proofs::Sets::brews_ascending))]
    pub fn is_a_choice(&self)
        ensures { IsChoice (figures_of self.now.figures) (brews_of self.now) }
    {}
}
