//! The one table that keeps orders, whatever kind of card they came from.

ghost use Rattle.std.specs.Prelude.{◌≡◌, length};
ghost use Rattle.orders.specs.Rows.{HoldsOrders, WithinLimits};

use crate::limits::PLACES;

mod calls;

/// Row after row, the places that each chooser gives the items. A row that begins with 0 is that of
/// a chooser without an order.
// One array for the widest book: nothing is allocated.
#[derive(Drop)]
pub struct OrderTable {
    choosers: usize,
    items: usize,
    places: [u16; PLACES],
    ghost sizes: { WithinLimits choosers items },
    ghost long: { length places ≡ 6912 },
    ghost orders: { HoldsOrders choosers items places },
}
