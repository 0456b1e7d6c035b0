//! Why a card or a call on a book is refused.

ghost use Rattle.std.specs.Prelude.{◌≡◌};
ghost use Rattle.orders.specs.Refusals.{card_refusal, book_refusal};
ghost use Rattle.orders.specs.declared.fault.BookFault.TheVariants.{Card};

use refusal::{Fault, Refusal};

/// What is wrong with a card. Entries are counted from 1.
#[derive(Clone, Copy, PartialEq, Eq, Debug)]
pub enum CardFault {
    /// The card is not as long as its kind asks.
    Length,
    /// The entry is 0 or above the number of items.
    OutOfRange { entry: usize },
    /// The entry names an item that an earlier entry names too.
    Repeated { entry: usize },
}

/// It is told with the entry, or 0.
impl Fault for CardFault {
    ghost refusal = { card_refusal };

    fn refusal(&self) -> Refusal {
        match *self {
            CardFault::Length => Refusal::new(1, 0),
            CardFault::OutOfRange { entry } => Refusal::new(2, entry),
            CardFault::Repeated { entry } => Refusal::new(3, entry),
        }
    }
}

/// A refused card and whose it is.
#[derive(Clone, Copy, PartialEq, Eq, Debug)]
pub struct RefusedCard {
    pub chooser: usize,
    pub fault: CardFault,
}

/// Why a call on a book is refused.
#[derive(Clone, Copy, PartialEq, Eq, Debug)]
pub enum BookFault {
    /// The numbers of choosers and items are not those of a book.
    Size,
    /// The book has no chooser of that number.
    Chooser,
    /// The chooser's card is refused.
    Card(RefusedCard),
}

/// It is told with the card's entry, or 0.
impl Fault for BookFault {
    ghost refusal = { book_refusal };

    fn refusal(&self) -> Refusal {
        match self {
            BookFault::Size => Refusal::new(4, 0),
            BookFault::Chooser => Refusal::new(5, 0),
            BookFault::Card(card) => card.fault.refusal(),
        }
    }
}

impl From<RefusedCard> for BookFault {
    ghost from_gives = { λ card r. r ≡ Card card };

    fn from(refused: RefusedCard) -> BookFault {
        BookFault::Card(refused)
    }
}
