//! How a taker is considered by the brew where it stands.

ghost use Rattle.std.specs.Prelude.{◌≡◌, ◌≤◌, [], ◌∷◌, length};
ghost use Rattle.allot.specs.OpenMarkets.{brews_opened, market_in};
ghost use Rattle.allot.specs.Runs.{Considered, FullBehind, in_line, LastHeld, RefusedNext, State};
ghost use Rattle.fair.specs.Acceptance.{deferred_acceptance};
ghost use Rattle.fair.specs.Markets.{IsBrew};

use super::Run;
use crate::open_market::OpenMarket;
use orders::book::OrderBook;

// The list where the takers stand is a parameter beside the market: no ghost field is covered in a struct that would
// hold it by `&mut`.
impl Run {
    /// The last of the first places of a brew's order, counted from 0, whose taker it holds.
    fn last_held<T: OrderBook, B: OrderBook>(
        &self,
        market: &OpenMarket<T, B>,
        stands: &[u8],
        brew: usize,
        places: usize,
    ) -> Option<usize>
        requires each { length stands.now ≡ market.now.choice.now.figures.takers }
        requires brew { IsBrew (market_in market.now) brew }
        requires places { places ≤ market.now.choice.now.figures.takers }
        ensures { LastHeld (market_in market.now) stands.now self.now.waiting brew places result }
    {
        // A loop: that `find` over a range under `rev` gives the last place is not proved.
        for place in (0..places).rev() {
            if self.holds(stands, brew, market.taker_at(brew, place)) {
                return Some(place);
            }
        }
        None
    }

    /// Exchanges the last taker that a full brew holds for one in front of it, and answers who that was: it is refused.
    fn exchange<T: OrderBook, B: OrderBook>(
        &mut self,
        market: &OpenMarket<T, B>,
        stands: &[u8],
        taker: usize,
    ) -> usize
        requires before { State market.now stands.now self.old (taker ∷ in_line self.old) }
        requires full { FullBehind market.now stands.now self.old taker }
        ensures refused { RefusedNext market.now stands.now self.new result }
        ensures line { in_line self.new ≡ in_line self.old }
    {
        let brew = usize::from(stands[taker]);
        let last = usize::from(self.held[brew].last.unwrap()) - 1;
        let refused = market.taker_at(brew, last);
        self.waiting[taker] = false;
        self.waiting[refused] = true;
        let before = self.last_held(market, stands, brew, last).unwrap();
        self.held[brew].last = Some(before as u16 + 1);
        refused
    }

    /// Has a refused taker stand at the next brew of its order and wait there.
    fn move_on<T: OrderBook, B: OrderBook>(
        &mut self,
        market: &OpenMarket<T, B>,
        stands: &mut [u8],
        taker: usize,
    )
        requires { RefusedNext market.now stands.old self.old taker }
        ensures { Considered market.now stands.old self.old taker stands.new self.new }
    {
        let brew = usize::from(stands[taker]);
        let place = market.books.takers.place(taker + 1, brew).unwrap();
        let next = market.next_brew(taker, usize::from(place)).unwrap();
        stands[taker] = next as u8;
        self.wait(taker);
    }

    /// Considers a taker at the brew where it stands; whoever is refused there moves on.
    fn consider<T: OrderBook, B: OrderBook>(
        &mut self,
        market: &OpenMarket<T, B>,
        stands: &mut [u8],
        taker: usize,
    )
        requires { State market.now stands.old self.old (taker ∷ in_line self.old) }
        ensures { Considered market.now stands.old self.old taker stands.new self.new }
    {
        let brew = usize::from(stands[taker]);
        let place = market.books.brews.place(brew, taker + 1).unwrap();
        if self.has_lot(market.choice, brew) {
            self.hold(brew, taker, place);
        } else if self.is_behind(brew, place) {
            let refused = self.exchange(market, stands, taker);
            self.move_on(market, stands, refused);
        } else {
            self.move_on(market, stands, taker);
        }
    }

    /// Considers whoever waits, until nobody does.
    pub(crate) fn finish<T: OrderBook, B: OrderBook>(
        &mut self,
        market: &OpenMarket<T, B>,
        stands: &mut [u8],
    )
        requires { State market.now stands.old self.old (in_line self.old) }
        ensures { stands.new ≡ deferred_acceptance (market_in market.now) (brews_opened market.now) }
    {
        while let Some(taker) = self.line.take(&self.slots) {
            self.consider(market, stands, usize::from(taker));
        }
        self.ends_in_acceptance(market, stands);
    }

    /// States that a run in which nobody waits has come to what deferred acceptance gives.
    fn ends_in_acceptance<T: OrderBook, B: OrderBook>(
        &self,
        market: &OpenMarket<T, B>,
        stands: &[u8],
    )
        requires before { State market.now stands.now self.now (in_line self.now) }
        requires none { in_line self.now ≡ [] }
        ensures { stands.now ≡ deferred_acceptance (market_in market.now) (brews_opened market.now) }
    {}
}
