//! A book of any kind of card: a reader of cards over the one table.

ghost use Rattle.std.specs.Prelude.{◌≡◌};
ghost use Rattle.orders.specs.Books.{blank};
ghost use Rattle.orders.specs.Tables.{table_meaning};
ghost use Rattle.orders.specs.Kept.{table_sound};

use crate::book::OrderBook;
use crate::fault::{BookFault, RefusedCard};
use crate::limits::MOST;
use crate::reader::CardReader;
use crate::table::OrderTable;

/// An order book whose cards are read by `R`.
#[derive(Drop)]
pub struct CardBook<R> {
    reader: R,
    table: OrderTable,
}

impl<R: CardReader> CardBook<R> {
    /// A fresh book has neither choosers nor items.
    pub fn new(reader: R) -> CardBook<R>
        ensures empty { table_meaning result.table ≡ blank 0 0 }
        ensures kind { result.reader ≡ reader }
    {
        CardBook {
            reader,
            table: OrderTable::new(),
        }
    }
}

impl<R: CardReader> OrderBook for CardBook<R> {
    ghost meaning = { λ book. table_meaning book.table };

    ghost reading = { λ book. R.reads book.reader };

    ghost reads_orders = { λ book. R.reads_orders book.reader };

    ghost sound = { λ book. table_sound book.table };

    fn choosers(&self) -> usize {
        self.table.choosers()
    }

    fn items(&self) -> usize {
        self.table.items()
    }

    fn clear(&mut self, choosers: usize, items: usize) -> Result<(), BookFault> {
        self.table.clear(choosers, items)
    }

    // Inlined, so that a refused call stays short, and a short card too.
    #[inline]
    fn enter(&mut self, chooser: usize, card: &[u8]) -> Result<(), BookFault> {
        if !self.table.has(chooser) {
            return Err(BookFault::Chooser);
        }
        // As wide as the widest book: nothing is allocated.
        let mut places = [0; MOST];
        let row = &mut places[..self.items()];
        self.reader
            .read(card, chooser, row)
            .map_err(|fault| RefusedCard { chooser, fault })?;
        self.table.keep(chooser, row);
        Ok(())
    }

    fn place(&self, chooser: usize, item: usize) -> Option<u16> {
        self.table.place(chooser, item)
    }
}
