//! A round's figures with its two books.

ghost use Rattle.std.specs.Prelude.{◌≡◌, Decides};
ghost use Rattle.fair.specs.FromBooks.{Complete};
ghost use Rattle.choices.specs.Rounds.{figures_of};

use crate::missing::all_ordered;
use choices::figures::Figures;
use orders::book::OrderBook;

/// The figures of a round, the book in which the takers rank the brews, and that in which the brews rank the takers.
#[derive(Drop)]
pub struct Market<'t, 'b, T, B> {
    pub figures: Figures,
    pub takers: &'t T,
    pub brews: &'b B,
}

impl<T: OrderBook, B: OrderBook> Market<'_, '_, T, B> {
    ghost use Rattle.assess.specs.Markets.{sizes_fit};

    /// Whether the books are of the sizes of the round, and everybody in them has an order.
    pub fn is_complete(&self) -> bool
        ensures { Decides result (Complete (figures_of self.now.figures) (T.meaning self.now.takers.now) (B.meaning self.now.brews.now)) }
    {
        self.sizes_fit() && all_ordered(self.takers) && all_ordered(self.brews)
    }

    /// Whether the books are of the sizes of the round.
    fn sizes_fit(&self) -> bool
        ensures { result ≡ sizes_fit (figures_of self.now.figures) (T.meaning self.now.takers.now) (B.meaning self.now.brews.now) }
    {
        self.takers.choosers() == self.figures.takers()
            && self.takers.items() == self.figures.brews()
            && self.brews.choosers() == self.figures.brews()
            && self.brews.items() == self.figures.takers()
    }
}
