//! A choice of the brews to open.

ghost use Rattle.std.specs.Prelude.{◌≡◌, ◌^◌, ◌<◌, length};
ghost use Rattle.choices.specs.Bits.{brews_in};

use crate::figures::Figures;

mod asks;
mod makes;
mod order;

/// As many different brews as a round opens. They are the bits of one number, the highest of which is for brew 1: of two
/// choices of a round, the one with the higher number comes first.
#[derive(Clone, Copy)]
pub struct Choice {
    figures: Figures,
    bits: u32,
    ghost inside: { bits < 2 ^ figures.brews },
    ghost size: { length (brews_in 0 figures.brews bits) ≡ figures.opened },
}
