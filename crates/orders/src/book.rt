//! The interface to an order book: all that code above it may rest on.

ghost use Rattle.std.specs.Prelude.{◌≡◌};
ghost use Rattle.orders.specs.Books.{Meaning, Reading, ReadsOrders, Sound, Cleared, Entered, place_in};

use crate::fault::BookFault;

/// For each chooser an order of all items, or none yet. Choosers and items are numbered from 1.
pub trait OrderBook {
    /// How many choosers and items the book has, and each chooser's order or none.
    ghost meaning: { Self → Meaning };

    /// How its kind reads a card: the same for as long as the book lives.
    ghost reading: { Self → Reading };

    /// The number of choosers.
    fn choosers(&self) -> usize
        ensures { result ≡ (meaning self.now).choosers };

    /// The number of items.
    fn items(&self) -> usize
        ensures { result ≡ (meaning self.now).items };

    /// Makes this a book of so many choosers and items in which nobody has an order.
    fn clear(&mut self, choosers: usize, items: usize) -> Result<(), BookFault>
        ensures cleared { Cleared choosers items (meaning self.old) result (meaning self.new) }
        ensures kind { reading self.new ≡ reading self.old };

    /// Makes what the card is read as the chooser's order. A refusal changes nothing.
    fn enter(&mut self, chooser: usize, card: &[u8]) -> Result<(), BookFault>
        ensures entered { Entered (reading self.old) chooser card.now (meaning self.old) result (meaning self.new) }
        ensures kind { reading self.new ≡ reading self.old };

    /// The place of an item with a chooser, if the chooser has an order.
    fn place(&self, chooser: usize, item: usize) -> Option<u16>
        ensures { result ≡ place_in (meaning self.now) chooser item };

    /// What is read is always an order.
    ghost reads_orders: { (book : Self) → ReadsOrders (reading book) };

    /// Every order kept is one, and the sizes are within the limits.
    ghost sound: { (book : Self) → Sound (meaning book) };
}
