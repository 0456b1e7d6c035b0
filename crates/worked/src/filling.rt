//! Entering the cards of a book.

ghost use Rattle.std.specs.Prelude.{map};
ghost use Rattle.worked.specs.Filled.{Filled};

use orders::book::OrderBook;
use orders::fault::BookFault;

/// Makes a book of so many items and a chooser for each card, and enters the cards in order.
pub fn fill<B: OrderBook>(book: &mut B, items: usize, cards: &[&[u8]]) -> Result<(), BookFault>
    ensures { Filled (B.reading book.old) items (map (λ card. card.now) cards.now) result (B.meaning book.new) }
{
    book.clear(cards.len(), items)?;
    for (k, card) in cards.iter().enumerate() {
        book.enter(k + 1, card)?;
    }
    Ok(())
}
