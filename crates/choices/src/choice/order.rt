//! The order of the choices: compared brew by brew from the lowest on, as ascending lists of numbers.

ghost use Rattle.std.specs.Prelude.{◌≡◌, ◌^◌, ◌≤◌};
ghost use Rattle.choices.specs.Order.{choices_from, FirstOf, HighestBelow, is_choice, NextOf, OrdinalOf};

use crate::choice::Choice;
use crate::figures::Figures;

// Figures and a number are two parameters here, and no set or choice: most numbers stand for no choice.

/// One above the highest number that stands for a set of the round's brews.
fn above_all(figures: Figures) -> u32
    ensures { result ≡ 2 ^ figures.brews }
{
    1 << figures.brews()
}

/// Whether a number stands for a choice of the round.
fn is_choice(figures: Figures, bits: u32) -> bool
    ensures { result ≡ is_choice figures bits }
{
    // `as`: usize has no From of u32.
    bits.count_ones() as usize == figures.opened()
}

/// The choice with the highest number below one.
#[tactic(auto, using(crate::proofs::Numbered::length_ones, crate::proofs::Ordinals::passing_yes, crate::proofs::Ordinals::passing_no))]
fn highest_below(figures: Figures, bits: u32) -> Option<Choice>
    requires { bits ≤ 2 ^ figures.brews }
    ensures { HighestBelow figures bits result }
{
    // A loop: that `find` over a range under `rev` gives the highest number is not proved.
    for lower in (0..bits).rev() {
        if is_choice(figures, lower) {
            return Some(Choice {
                figures,
                bits: lower,
            });
        }
    }
    None
}

/// How many choices have that number or a higher one.
fn count_from(figures: Figures, bits: u32) -> usize
    ensures { result ≡ choices_from figures bits }
{
    (bits..above_all(figures))
        .filter(|&higher| is_choice(figures, higher))
        .count()
}

impl Choice {
    /// The first choice of a round.
    #[tactic(auto, using(crate::proofs::Ordinals::first))]
    pub fn first(figures: Figures) -> Choice
        ensures { FirstOf figures result }
    {
        highest_below(figures, above_all(figures)).unwrap()
    }

    /// The choice behind this one; none behind the last.
    #[tactic(auto, using(crate::proofs::Ordinals::next))]
    pub fn next(&self) -> Option<Choice>
        ensures { NextOf self.now result }
    {
        highest_below(self.figures, self.bits)
    }

    /// Where the choice stands in their order, counted from 1.
    #[tactic(auto, using(crate::proofs::Ordinals::some_counted, crate::proofs::Ordinals::counted_inside, crate::proofs::Ordinals::counted_stands))]
    pub fn ordinal(&self) -> usize
        ensures { OrdinalOf self.now result }
    {
        count_from(self.figures, self.bits)
    }
}
