//! A kind of card: how it is read.

ghost use Rattle.std.specs.Prelude.{length};
ghost use Rattle.orders.specs.Books.{Reading, ReadsOrders, ReadInto};

use crate::fault::CardFault;

/// A way to read cards.
pub trait CardReader {
    /// What a card is read as: an order, or a fault.
    ghost reads: { Self → Reading };

    /// Reads the chooser's card for as many items as the row has places. The row then holds the
    /// places of the items; a refused card leaves it as it was.
    fn read(&self, card: &[u8], chooser: usize, row: &mut [u16]) -> Result<(), CardFault>
        ensures { ReadInto (reads self.now (length row.old) chooser card.now) row.old result row.new };

    /// What is read is always an order.
    ghost reads_orders: { (reader : Self) → ReadsOrders (reads reader) };
}
