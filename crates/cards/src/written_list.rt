//! Written lists: the items from best to worst, every item once.

ghost use Rattle.std.specs.Prelude.{◌≡◌, ◌<◌, ◌≤◌, ◌==◌, length};
ghost use Rattle.orders.specs.Books.{ReadInto, within};
ghost use Rattle.orders.specs.declared.fault.CardFault.TheVariants.{OutOfRange, Repeated};
ghost use Rattle.cards.specs.Readings.{list_or_fault, list_reading};
ghost use Rattle.cards.specs.Steps.{Checked, EntryRead, Listed, ListedTo, bytes_of, items_of};
ghost use Rattle.cards.specs.Orders.{list_reads_orders};

use crate::card::Card;
use orders::card_book::CardBook;
use orders::fault::CardFault;
use orders::limits::MOST;
use orders::reader::CardReader;

/// The kind of card that lists the items from best to worst.
#[derive(Clone, Copy)]
pub struct WrittenList;

/// An order book of written lists.
pub type ListBook = CardBook<WrittenList>;

/// Refuses an entry, counted from 1, that names no item.
fn check_range(card: &Card, item: usize, entry: usize) -> Result<(), CardFault>
    ensures { Checked (within item (items_of card.now)) (OutOfRange entry) result }
{
    if !(1..=card.items()).contains(&item) {
        return Err(CardFault::OutOfRange { entry });
    }
    Ok(())
}

/// Refuses an entry, counted from 1, whose item has a place already.
fn check_new(place: u16, entry: usize) -> Result<(), CardFault>
    ensures { Checked (place == 0) (Repeated entry) result }
{
    if place != 0 {
        return Err(CardFault::Repeated { entry });
    }
    Ok(())
}

/// Reads entry k, counted from 0, behind entries that are good. An item's place is 0 until an entry
/// names it, so an entry that finds another place there repeats an earlier one.
fn read_entry(card: &Card, k: usize, places: &mut [u16]) -> Result<(), CardFault>
    requires room { items_of card.now ≤ length places.old }
    requires before { (k < items_of card.now) × ListedTo (items_of card.now) (bytes_of card.now) k places.old }
    ensures { EntryRead (items_of card.now) (bytes_of card.now) k places.old result places.new }
{
    let entry = k + 1;
    let item = usize::from(card.entry(k));
    check_range(card, item, entry)?;
    check_new(places[item - 1], entry)?;
    places[item - 1] = entry as u16;
    Ok(())
}

/// The place of each item, in a table that may have more places than there are items.
fn places_of(card: &Card) -> Result<[u16; MOST], CardFault>
    ensures { Listed (items_of card.now) (bytes_of card.now) result }
{
    // As wide as the widest card, as nothing is allocated; 0 and no Option, as the row takes the places as they are.
    let mut places = [0; MOST];
    // A range: each step is told by number which entry it reads, as a fault tells it.
    for k in 0..card.items() {
        read_entry(card, k, &mut places)?;
    }
    Ok(places)
}

/// Reads a card into a row; a refused card leaves it as it was.
fn fill_row(card: &Card, row: &mut [u16]) -> Result<(), CardFault>
    requires { items_of card.now ≡ length row.old }
    ensures { ReadInto (list_or_fault (items_of card.now) (bytes_of card.now)) row.old result row.new }
{
    let places = places_of(card)?;
    row.copy_from_slice(&places[..row.len()]);
    Ok(())
}

impl CardReader for WrittenList {
    ghost reads = { λ _. list_reading };

    ghost reads_orders = { λ reader. list_reads_orders };

    fn read(&self, card: &[u8], _chooser: usize, row: &mut [u16]) -> Result<(), CardFault> {
        let card = Card::new(card, row.len())?;
        fill_row(&card, row)
    }
}
