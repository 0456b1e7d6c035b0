//! What the kinds of card share: two bytes for each entry, the higher first.

ghost use Rattle.std.specs.Prelude.{◌≡◌, ◌<◌, ◌≤◌, length};
ghost use Rattle.std.specs.List.{concat};
ghost use Rattle.std.specs.Simd.{first_chunks};
ghost use Rattle.cards.specs.Readings.{entry_at};

use orders::fault::CardFault;
use orders::limits::MOST;

/// A card that has an entry for each item.
#[derive(Clone, Copy)]
pub(crate) struct Card<'a> {
    entries: &'a [[u8; 2]],
    ghost few: { length entries.now ≤ 432 },
    ghost pairs: { entries.now ≡ first_chunks 2 (length entries.now) (concat entries.now) },
}

impl<'a> Card<'a> {
    ghost use Rattle.cards.specs.Steps.{CardMade, bytes_of, items_of};

    /// The card for so many items, if these bytes are as long as it asks.
    #[tactic(auto, using(crate::proofs::Pairs::bytes_back, crate::proofs::Pairs::in_pairs))]
    pub(crate) fn new(bytes: &'a [u8], items: usize) -> Result<Card<'a>, CardFault>
        ensures { CardMade items bytes.now result }
    {
        if items > MOST || bytes.len() != 2 * items {
            return Err(CardFault::Length);
        }
        let (entries, _) = bytes.as_chunks::<2>();
        Ok(Card { entries })
    }

    /// How many items and entries.
    pub(crate) fn items(&self) -> usize
        ensures { result ≡ items_of self.now }
    {
        self.entries.len()
    }

    /// Entry k, counted from 0.
    // Whoever asks shows that there is one, as of an index.
    #[tactic(auto, using(crate::proofs::Pairs::number_of))]
    pub(crate) fn entry(&self, k: usize) -> u16
        requires { k < items_of self.now }
        ensures { result ≡ entry_at (bytes_of self.now) k }
    {
        u16::from_be_bytes(self.entries[k])
    }
}
