//! What the program answers to a card.

ghost use Rattle.std.specs.Prelude.{◌≡◌, IfOk, Some, codes};
ghost use Rattle.readcard.specs.Asked.{Named, SoleCard, answer_of, lines_in, reading_of};

use crate::line::Line;
use cards::points::Points;
use cards::written_list::WrittenList;
use orders::book::OrderBook;
use orders::card_book::CardBook;
use orders::fault::BookFault;
use std::alloc::{AllocError, Global};
use std::error::Error;
use std::fmt;
use std::str::FromStr;

/// A kind of card.
#[derive(Clone, Copy)]
pub enum Kind {
    List,
    Points,
}

/// A word names no kind of card.
#[derive(Clone, Copy, Debug)]
pub struct UnknownKind;

// By hand: the message is under contract.
impl fmt::Display for UnknownKind {
    ghost output = { λ _. Some (codes "KIND is neither list nor points") };

    fn fmt<W: fmt::Write>(&self, f: &mut fmt::Formatter<W>) -> fmt::Result {
        write!(f, "KIND is neither list nor points")
    }
}

impl Error for UnknownKind {}

impl FromStr for Kind {
    type Err = UnknownKind;

    ghost from_str_gives = { Named };

    fn from_str(word: &str) -> Result<Kind, UnknownKind> {
        match word {
            "list" => Ok(Kind::List),
            "points" => Ok(Kind::Points),
            _ => Err(UnknownKind),
        }
    }
}

/// Reads a card as that of the only chooser of a book.
fn read_sole<B: OrderBook>(book: &mut B, items: usize, card: &[u8]) -> Result<(), BookFault>
    ensures { SoleCard (B.reading book.old) items card.now (B.meaning book.old) result (B.meaning book.new) }
{
    book.clear(1, items)?;
    book.enter(1, card)
}

/// The line `ok`, and one for each item that has a place with the first chooser.
#[tactic(auto, using(crate::proofs::Lines::lines_some, crate::proofs::Lines::lines_none))]
fn place_lines<B: OrderBook>(heap: Global, book: &B) -> Result<Vec<Line>, AllocError>
    ensures { IfOk result (λ lines. lines.items ≡ lines_in (B.meaning book.now) (B.meaning book.now).items) }
{
    let mut lines = Vec::new(heap);
    lines.push(Line::Ok)?;
    // Items are numbers: the book is asked for each.
    for item in 1..=book.items() {
        if let Some(place) = book.place(1, item) {
            lines.push(Line::Place { item, place })?;
        }
    }
    Ok(lines)
}

/// The lines of a card that is read into a book.
fn answer_by<B: OrderBook + Drop>(
    heap: Global,
    mut book: B,
    items: usize,
    card: &[u8],
) -> Result<Vec<Line>, AllocError>
    ensures { IfOk result (λ lines. lines.items ≡ answer_of (B.reading book) items card.now) }
{
    match read_sole(&mut book, items, card) {
        Ok(()) => place_lines(heap, &book),
        Err(fault) => Ok(vec![in heap; Line::Refused(fault)]?),
    }
}

/// All that the program prints of a card of a kind.
pub fn answer(heap: Global, kind: Kind, items: usize, card: &[u8]) -> Result<Vec<Line>, AllocError>
    ensures { IfOk result (λ lines. lines.items ≡ answer_of (reading_of kind) items card.now) }
{
    // A match: each kind has a type of its own, and a closure for each would be one more name.
    match kind {
        Kind::List => answer_by(heap, CardBook::new(WrittenList), items, card),
        Kind::Points => answer_by(heap, CardBook::new(Points), items, card),
    }
}
