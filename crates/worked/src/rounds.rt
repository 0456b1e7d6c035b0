//! The cards of three small rounds, two bytes for each entry.

/// A round: its title, how many brews it opens with how many lots each, the cards of its takers and brews, the kind of the
/// brews' cards, and an allotment written by hand if there is one.
#[derive(Drop)]
pub struct Round<'a, R> {
    pub title: &'a str,
    pub opened: usize,
    pub lots: usize,
    pub takers: &'a [&'a [u8]],
    pub brews: &'a [&'a [u8]],
    pub kind: R,
    pub by_hand: Option<&'a [u8]>,
}

/// Six takers list five brews, best first.
pub const SIX_TAKERS: [&[u8]; 6] = [
    &[0, 4, 0, 1, 0, 2, 0, 3, 0, 5],
    &[0, 1, 0, 5, 0, 4, 0, 3, 0, 2],
    &[0, 4, 0, 2, 0, 3, 0, 1, 0, 5],
    &[0, 5, 0, 4, 0, 1, 0, 3, 0, 2],
    &[0, 5, 0, 2, 0, 1, 0, 3, 0, 4],
    &[0, 2, 0, 1, 0, 4, 0, 5, 0, 3],
];

/// The five brews list the six takers.
pub const FIVE_BREWS: [&[u8]; 5] = [
    &[0, 1, 0, 4, 0, 5, 0, 6, 0, 2, 0, 3],
    &[0, 6, 0, 3, 0, 5, 0, 2, 0, 1, 0, 4],
    &[0, 2, 0, 5, 0, 1, 0, 3, 0, 4, 0, 6],
    &[0, 1, 0, 3, 0, 6, 0, 4, 0, 5, 0, 2],
    &[0, 4, 0, 2, 0, 3, 0, 5, 0, 6, 0, 1],
];

/// Three takers list three brews.
pub const THREE_TAKERS: [&[u8]; 3] = [
    &[0, 2, 0, 1, 0, 3],
    &[0, 1, 0, 3, 0, 2],
    &[0, 1, 0, 2, 0, 3],
];

/// The three brews give points to the three takers, in taker order: their orders are 1 2 3, 2 3 1 and 3 1 2.
pub const THREE_BREWS: [&[u8]; 3] = [
    &[0, 9, 0, 8, 0, 7],
    &[0, 7, 0, 9, 0, 8],
    &[0, 8, 0, 7, 0, 9],
];

/// Six takers list three brews.
pub const SIX_OTHERS: [&[u8]; 6] = [
    &[0, 2, 0, 1, 0, 3],
    &[0, 2, 0, 1, 0, 3],
    &[0, 1, 0, 2, 0, 3],
    &[0, 1, 0, 2, 0, 3],
    &[0, 1, 0, 2, 0, 3],
    &[0, 1, 0, 2, 0, 3],
];

/// The three brews list the six takers.
pub const THREE_OTHERS: [&[u8]; 3] = [
    &[0, 1, 0, 2, 0, 5, 0, 6, 0, 3, 0, 4],
    &[0, 3, 0, 4, 0, 1, 0, 2, 0, 5, 0, 6],
    &[0, 3, 0, 4, 0, 1, 0, 2, 0, 5, 0, 6],
];

/// An allotment to those six takers, written by hand.
pub const BY_HAND: [u8; 6] = [2, 2, 1, 1, 3, 3];
