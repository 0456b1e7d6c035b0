//! The best fair allotment over a choice.

ghost use Rattle.std.specs.Prelude.{◌≡◌, length};
ghost use Rattle.allot.specs.Best.{BestFairWritten};
ghost use Rattle.choices.specs.Chosen.{brews_of};
ghost use Rattle.choices.specs.Rounds.{figures_of};
ghost use Rattle.fair.specs.Acceptance.{deferred_acceptance};
ghost use Rattle.fair.specs.FromBooks.{Complete, market_of};

use crate::fault::AllotFault;
use crate::open_market::OpenMarket;
use crate::prepared::Prepared;
use assess::market::Market;
use choices::choice::Choice;
use orders::book::OrderBook;

/// Writes the best fair allotment over a choice, by complete books.
fn write_best<T: OrderBook, B: OrderBook>(
    takers: &T,
    brews: &B,
    choice: &Choice,
    allotment: &mut [u8],
)
    requires complete { Complete (figures_of choice.now.figures) (T.meaning takers.now) (B.meaning brews.now) }
    requires length { length allotment.old ≡ choice.now.figures.takers }
    ensures { allotment.new ≡ deferred_acceptance (market_of (figures_of choice.now.figures) (T.meaning takers.now) (B.meaning brews.now)) (brews_of choice.now) }
{
    let books = Prepared::of(takers, brews);
    let market = OpenMarket {
        books: &books,
        choice,
    };
    market.best_fair(allotment);
}

/// Writes the best fair allotment over a choice, the brew of each taker. It is refused where the list has another length
/// than there are takers, and else where the books are not complete for the figures of the choice; refused, the list
/// stays as it was.
// Books and choice, and no `Market`: a choice has its own figures.
pub fn best_fair<T: OrderBook, B: OrderBook>(
    takers: &T,
    brews: &B,
    choice: &Choice,
    allotment: &mut [u8],
) -> Result<(), AllotFault>
    ensures { BestFairWritten (figures_of choice.now.figures) (T.meaning takers.now) (B.meaning brews.now) (brews_of choice.now) allotment.old result allotment.new }
{
    let market = Market {
        figures: choice.figures(),
        takers,
        brews,
    };
    // The list first: no book is asked for one that is refused.
    if allotment.len() != market.figures.takers() {
        return Err(AllotFault::Length);
    }
    if !market.is_complete() {
        return Err(AllotFault::Incomplete);
    }
    write_best(takers, brews, choice, allotment);
    Ok(())
}
