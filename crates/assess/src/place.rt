//! What the books and the list say of one taker or brew.

ghost use Rattle.std.specs.Prelude.{◌≡◌, slice_index};
ghost use Rattle.std.specs.Option.{unwrap_or};
ghost use Rattle.orders.specs.Books.{place_in};
ghost use Rattle.assess.specs.Envying.{ranks_above};

use orders::book::OrderBook;

/// The brew of the taker at an index; 0 past the end of the list.
pub(crate) fn brew_of(allotment: &[u8], taker: usize) -> usize
    ensures { result ≡ slice_index allotment.now taker }
{
    // 0 and no Option: to the definitions an entry that is not there is 0, which is no brew.
    allotment.get(taker).map_or(0, |&brew| usize::from(brew))
}

/// The place of an item with a chooser; 0 where it has none.
pub fn place_in<B: OrderBook>(book: &B, chooser: usize, item: usize) -> u16
    ensures { result ≡ unwrap_or (place_in (B.meaning book.now) chooser item) 0 }
{
    // 0 and no Option: the places of a market are numbers, and an absent one is 0 there.
    book.place(chooser, item).unwrap_or(0)
}

/// Whether a chooser ranks one item above another.
pub(crate) fn ranks_above<B: OrderBook>(book: &B, chooser: usize, item: usize, other: usize) -> bool
    ensures { result ≡ ranks_above (B.meaning book.now) chooser item other }
{
    place_in(book, chooser, item) < place_in(book, chooser, other)
}
