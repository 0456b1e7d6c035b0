//! Two prepared books and the brews to open.

ghost use Rattle.allot.specs.Prepared.{Complete-prop};
ghost use Rattle.choices.specs.Rounds.{figures_of};
ghost use Rattle.fair.specs.FromBooks.{Complete};

use crate::prepared::Prepared;
use crate::run::Run;
use choices::choice::Choice;
use orders::book::OrderBook;

/// Prepared books that are complete for the figures of a choice, and that choice.
#[derive(Drop)]
pub(crate) struct OpenMarket<'p, 't, 'b, T: OrderBook, B: OrderBook> {
    pub(crate) books: &'p Prepared<'t, 'b, T, B>,
    pub(crate) choice: &'p Choice,
    ghost complete: { Complete (figures_of choice.now.figures) (T.meaning books.now.takers.now) (B.meaning books.now.brews.now) } by { Complete-prop _ _ _ },
}

impl<T: OrderBook, B: OrderBook> OpenMarket<'_, '_, '_, T, B> {
    ghost use Rattle.std.specs.Prelude.{◌≡◌, ◌<◌, ◌≤◌, length};
    ghost use Rattle.acceptance.specs.Rankings.{NextAfter};
    ghost use Rattle.allot.specs.OpenMarkets.{AtPlace, brews_opened, market_in};
    ghost use Rattle.fair.specs.Acceptance.{deferred_acceptance};
    ghost use Rattle.fair.specs.Markets.{IsBrew};

    /// Writes the best fair allotment over the choice: that of deferred acceptance.
    pub(crate) fn best_fair(&self, allotment: &mut [u8])
        requires { length allotment.old ≡ self.now.choice.now.figures.takers }
        ensures { allotment.new ≡ deferred_acceptance (market_in self.now) (brews_opened self.now) }
    {
        let mut run = Run::begin(self, allotment);
        run.finish(self, allotment);
    }

    /// The first brew of the choice behind a place in the order of a taker, who is counted from 0.
    pub(crate) fn next_brew(&self, taker: usize, place: usize) -> Option<usize>
        requires taker { taker < self.now.choice.now.figures.takers }
        requires place { place ≤ self.now.choice.now.figures.brews }
        ensures { NextAfter (market_in self.now) taker (brews_opened self.now) place result }
    {
        self.books.by_taker.row(taker)[place..]
            .iter()
            .map(|brew| usize::from(*brew))
            .find(|brew| self.choice.has(*brew))
    }

    /// The taker, by index, at a place of the order of a brew, counted from 0.
    pub(crate) fn taker_at(&self, brew: usize, place: usize) -> usize
        requires brew { IsBrew (market_in self.now) brew }
        requires place { place < self.now.choice.now.figures.takers }
        ensures { AtPlace (market_in self.now) brew place result }
    {
        usize::from(self.books.by_brew.row(brew - 1)[place]) - 1
    }
}
