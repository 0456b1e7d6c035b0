//! How many takers each brew of a list has.

ghost use Rattle.std.specs.Prelude.{◌≡◌, ◌≤◌, length};
ghost use Rattle.fair.specs.Markets.{Market};
ghost use Rattle.choices.specs.Rounds.{figures_of};
ghost use Rattle.assess.specs.Lots.{CountsTo, FirstPartly, LowestUnfilled, TakersCounted, partly};

use choices::figures::Figures;
use choices::limits::BREWS;

/// How many takers each brew has, by its number less 1. What is no brew of the round is not counted.
pub fn takers_with(figures: &Figures, allotment: &[u8]) -> [u16; BREWS]
    ensures { (w : Market) → w.figures ≡ figures_of figures.now → TakersCounted w allotment.now result }
{
    counts(allotment, figures.brews(), figures.takers())
}

/// The lowest brew that has neither no takers nor one for each lot.
pub fn lowest_unfilled(figures: &Figures, allotment: &[u8]) -> Option<usize>
    ensures { (w : Market) → w.figures ≡ figures_of figures.now → LowestUnfilled w allotment.now result }
{
    let counts = counts(allotment, figures.brews(), figures.takers());
    first_partly(&counts, figures.lots(), figures.brews())
}

// As many counts as the most brews: nothing is allocated.
/// How many of the first `n` entries are each of so many brews.
fn counts(allotment: &[u8], brews: usize, n: usize) -> [u16; BREWS]
    requires { (brews ≤ 16) × (n ≤ 432) }
    ensures { CountsTo brews allotment.now n result }
{
    let mut counts = [0; BREWS];
    // The list is cut before the loop: `take` would count the entries once more.
    for &entry in &allotment[..n.min(allotment.len())] {
        let brew = usize::from(entry);
        if (1..=brews).contains(&brew) {
            counts[brew - 1] += 1;
        }
    }
    counts
}

/// The lowest of the first `n` brews that has part of its takers.
fn first_partly(counts: &[u16], lots: usize, n: usize) -> Option<usize>
    requires { n ≤ length counts.now }
    ensures { FirstPartly counts.now lots n result }
{
    let brew = counts[..n]
        .iter()
        .position(|&takers| is_partly(lots, usize::from(takers)))?;
    Some(brew + 1)
}

/// Whether so many takers are some, but not one for each lot.
fn is_partly(lots: usize, takers: usize) -> bool
    ensures { result ≡ partly lots takers }
{
    takers != 0 && takers != lots
}
