//! Who stands at each place of the orders of a book.

ghost use Rattle.std.specs.Prelude.{◌≡◌, ◌+◌, ◌*◌, ◌<◌, ◌≤◌, length, slice_range};
ghost use Rattle.acceptance.specs.Rankings.{RankedTo};
ghost use Rattle.fair.specs.FromBooks.{AllOrdered};

use orders::book::OrderBook;
use orders::limits::PLACES;

/// For each chooser of a book, in a row of its own, the numbers of the items from best to worst.
// One array for the widest book: nothing is allocated. Not the table of a book, whose rows hold orders or begin with 0.
#[derive(Drop)]
pub(crate) struct Ranking {
    items: usize,
    table: [u16; PLACES],
    ghost long: { length table ≡ 6912 },
}

/// Puts each item where it belongs in the row of a chooser, counted from 0.
fn rank_row<B: OrderBook>(book: &B, chooser: usize, table: &mut [u16])
    requires ordered { AllOrdered (B.meaning book.now) }
    requires before { (chooser < (B.meaning book.now).choosers) × RankedTo (B.meaning book.now) chooser 0 table.old }
    ensures { RankedTo (B.meaning book.now) (chooser + 1) 0 table.new }
{
    let items = book.items();
    let start = chooser * items;
    // A range: each item goes to the place that the book gives it, and not along the table.
    for item in 0..items {
        let place = book.place(chooser + 1, item + 1).unwrap();
        table[start + (usize::from(place) - 1)] = (item + 1) as u16;
    }
}

impl Ranking {
    ghost use Rattle.allot.specs.Prepared.{IsRankingOf};

    /// Asks a book for every place.
    pub(crate) fn of<B: OrderBook>(book: &B) -> Ranking
        requires { AllOrdered (B.meaning book.now) }
        ensures { IsRankingOf (B.meaning book.now) result }
    {
        let mut table = [0; PLACES];
        // A range: of a table that is lent in pieces, `chunks_mut`, nothing would be known afterwards.
        for chooser in 0..book.choosers() {
            rank_row(book, chooser, &mut table);
        }
        Ranking {
            items: book.items(),
            table,
        }
    }

    /// The order of a chooser, who is counted from 0: the numbers of the items.
    pub(crate) fn row(&self, chooser: usize) -> &[u16]
        requires { chooser * self.now.items + self.now.items ≤ 6912 }
        ensures { result.now ≡ slice_range self.now.table (chooser * self.now.items) (chooser * self.now.items + self.now.items) }
    {
        let start = chooser * self.items;
        &self.table[start..start + self.items]
    }
}
