//! The chooser whose order is missing.

ghost use Rattle.std.specs.Prelude.{Decides};
ghost use Rattle.fair.specs.FromBooks.{AllOrdered};
ghost use Rattle.assess.specs.Missing.{WithoutOrder};

use orders::book::OrderBook;

/// The lowest chooser that has no order: a book with choosers has a first item, and every order gives it a place.
pub fn without_order<B: OrderBook>(book: &B) -> Option<usize>
    ensures { WithoutOrder (B.meaning book.now) result }
{
    // A loop: that `find` over a range gives the lowest number, or none, is not proved. From 0 on: ranges from 1 on took
    // longer.
    for k in 0..book.choosers() {
        if book.place(k + 1, 1).is_none() {
            return Some(k + 1);
        }
    }
    None
}

/// Whether every chooser of a book has an order.
pub(crate) fn all_ordered<B: OrderBook>(book: &B) -> bool
    ensures { Decides result (AllOrdered (B.meaning book.now)) }
{
    without_order(book).is_none()
}
