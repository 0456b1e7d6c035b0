//! The calls on the table.

ghost use Rattle.std.specs.Prelude.{◌≡◌, true, option_copied};
ghost use Rattle.orders.specs.Books.{Cleared, IsOrder, blank, entered, fits, place_in, within};
ghost use Rattle.orders.specs.Rows.{WithinLimits};
ghost use Rattle.orders.specs.Tables.{table_meaning};

use super::OrderTable;
use crate::fault::BookFault;
use crate::limits::{MOST, PLACES};

fn sizes_fit(choosers: usize, items: usize) -> bool
    ensures { result ≡ fits choosers items }
{
    (1..=MOST).contains(&choosers) && (1..=MOST).contains(&items) && choosers * items <= PLACES
}

impl OrderTable {
    /// A table in which nobody has an order.
    fn without_orders(choosers: usize, items: usize) -> OrderTable
        requires { WithinLimits choosers items }
        ensures { table_meaning result ≡ blank choosers items }
    {
        OrderTable {
            choosers,
            items,
            places: [0; PLACES],
        }
    }

    pub(crate) fn new() -> OrderTable
        ensures { table_meaning result ≡ blank 0 0 }
    {
        OrderTable::without_orders(0, 0)
    }

    pub(crate) fn choosers(&self) -> usize
        ensures { result ≡ (table_meaning self.now).choosers }
    {
        self.choosers
    }

    pub(crate) fn items(&self) -> usize
        ensures { result ≡ (table_meaning self.now).items }
    {
        self.items
    }

    /// Whether there is a chooser of that number.
    pub(crate) fn has(&self, chooser: usize) -> bool
        ensures { result ≡ within chooser self.now.choosers }
    {
        (1..=self.choosers).contains(&chooser)
    }

    pub(crate) fn clear(&mut self, choosers: usize, items: usize) -> Result<(), BookFault>
        ensures { Cleared choosers items (table_meaning self.old) result (table_meaning self.new) }
    {
        if !sizes_fit(choosers, items) {
            return Err(BookFault::Size);
        }
        *self = OrderTable::without_orders(choosers, items);
        Ok(())
    }

    /// Makes the row the chooser's order.
    pub(crate) fn keep(&mut self, chooser: usize, row: &[u16])
        requires known { within chooser self.old.choosers ≡ true }
        requires order { IsOrder self.old.items row.now }
        ensures { table_meaning self.new ≡ entered (table_meaning self.old) chooser row.now }
    {
        let start = (chooser - 1) * self.items;
        let end = start + self.items;
        self.places[start..end].copy_from_slice(row);
    }

    /// The chooser's order, if there is one.
    fn order(&self, chooser: usize) -> Option<&[u16]>
        ensures { option_copied result ≡ (table_meaning self.now).order chooser }
    {
        if !self.has(chooser) {
            return None;
        }
        let start = (chooser - 1) * self.items;
        let row = &self.places[start..start + self.items];
        // 0 and no Option: no place is 0, and an Option in each would double the table.
        (row[0] != 0).then_some(row)
    }

    pub(crate) fn place(&self, chooser: usize, item: usize) -> Option<u16>
        ensures { result ≡ place_in (table_meaning self.now) chooser item }
    {
        // Both numbers first: no row is read for one that is out of range.
        if !self.has(chooser) || !(1..=self.items).contains(&item) {
            return None;
        }
        self.order(chooser)?.get(item - 1).copied()
    }
}
