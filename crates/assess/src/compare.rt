//! Whether one list is better for the takers than another.

ghost use Rattle.std.specs.Prelude.{◌+◌, ◌^◌, ◌<◌, Decides};
ghost use Rattle.orders.specs.Books.{Meaning};
ghost use Rattle.fair.specs.Allotments.{Better};
ghost use Rattle.fair.specs.FromBooks.{market_of};
ghost use Rattle.choices.specs.Rounds.{figures_of};
ghost use Rattle.assess.specs.Compared.{GainsWithoutLoss, Stands};

use crate::place::{brew_of, place_in};
use choices::figures::Figures;
use orders::book::OrderBook;
use std::cmp::Ordering;

/// Whether `a` is better than `b` for the takers: none ranks its brew in `a` lower, and one at least ranks it higher.
pub fn is_better<T: OrderBook>(figures: &Figures, takers: &T, a: &[u8], b: &[u8]) -> bool
    ensures { (brews : Meaning) → Decides result (Better (market_of (figures_of figures.now) (T.meaning takers.now) brews) a.now b.now) }
{
    gains(takers, a, b, figures.takers()).is_some_and(|higher| higher > 0)
}

// The book and both lists are three parameters: a struct of them would be made for one call.
/// How many of the first `n` takers rank their brew in `a` higher than in `b`; none where one ranks it lower.
fn gains<T: OrderBook>(takers: &T, a: &[u8], b: &[u8], n: usize) -> Option<usize>
    ensures { GainsWithoutLoss (T.meaning takers.now) a.now b.now n result }
{
    let mut higher = 0;
    // A range: the lists may be shorter than the takers.
    for taker in 0..n {
        match standing(takers, a, b, taker) {
            Ordering::Less => higher += 1,
            Ordering::Equal => {}
            Ordering::Greater => return None,
        }
    }
    Some(higher)
}

/// How the place of a taker's brew in `a` compares with that of its brew in `b`.
fn standing<T: OrderBook>(takers: &T, a: &[u8], b: &[u8], taker: usize) -> Ordering
    requires { taker + 1 < 2 ^ 64 }
    ensures { Stands (T.meaning takers.now) a.now b.now taker result }
{
    let in_a = place_in(takers, taker + 1, brew_of(a, taker));
    let in_b = place_in(takers, taker + 1, brew_of(b, taker));
    in_a.cmp(&in_b)
}
