//! Two books, prepared for many questions.

ghost use Rattle.std.specs.Prelude.{◌≡◌};
ghost use Rattle.allot.specs.Prepared.{IsRankingOf};
ghost use Rattle.fair.specs.FromBooks.{AllOrdered};

use crate::ranking::Ranking;
use orders::book::OrderBook;

/// The takers' book and the brews' book, with who stands at each place of their orders.
#[derive(Drop)]
pub(crate) struct Prepared<'t, 'b, T: OrderBook, B: OrderBook> {
    pub(crate) takers: &'t T,
    pub(crate) brews: &'b B,
    pub(crate) by_taker: Ranking,
    pub(crate) by_brew: Ranking,
    ghost brews_ranked: { IsRankingOf (T.meaning takers.now) by_taker },
    ghost takers_ranked: { IsRankingOf (B.meaning brews.now) by_brew },
}

impl<'t, 'b, T: OrderBook, B: OrderBook> Prepared<'t, 'b, T, B> {
    /// Asks two books for every place.
    pub(crate) fn of(takers: &'t T, brews: &'b B) -> Prepared<'t, 'b, T, B>
        requires { AllOrdered (T.meaning takers.now) × AllOrdered (B.meaning brews.now) }
        ensures of_takers { result.takers.now ≡ takers.now }
        ensures of_brews { result.brews.now ≡ brews.now }
    {
        Prepared {
            takers,
            brews,
            by_taker: Ranking::of(takers),
            by_brew: Ranking::of(brews),
        }
    }
}
