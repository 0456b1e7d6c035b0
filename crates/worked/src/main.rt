//! worked: enters the cards of three small rounds into order books, prints for each choice the best fair allotment, and for
//! an allotment written by hand its just envies and the lowest taker with one.
#![tactic(auto)]

use crate::filling::fill;
use crate::lines::choice_line;
use crate::rounds::{
    BY_HAND, FIVE_BREWS, Round, SIX_OTHERS, SIX_TAKERS, THREE_BREWS, THREE_OTHERS, THREE_TAKERS,
};
use crate::text::{AllotmentLine, EnvyLine};
use anyhow::{Context, anyhow};
use assess::envy::Envy;
use assess::market::Market;
use cards::points::Points;
use cards::written_list::WrittenList;
use choices::choice::Choice;
use choices::figures::Figures;
use line::Line;
use orders::book::OrderBook;
use orders::card_book::CardBook;
use orders::reader::CardReader;

mod filling;
mod lines;
mod rounds;
mod text;

/// Prints each choice with its best fair allotment, in order.
fn print_choices<T: OrderBook, B: OrderBook>(
    rt: &HostRuntime,
    market: &Market<'_, '_, T, B>,
) -> anyhow::Result<()> {
    let mut next = Some(Choice::first(market.figures));
    while let Some(choice) = next {
        let line = choice_line(market.takers, market.brews, &choice);
        rt.println(line.context("a book is not complete")?)?;
        next = choice.next();
    }
    Ok(())
}

/// Prints the just envies of an allotment, as many as there is room for, and the lowest taker with one.
fn print_envies<T: OrderBook, B: OrderBook>(
    rt: &HostRuntime,
    market: &Market<'_, '_, T, B>,
    allotment: &[u8],
) -> anyhow::Result<()> {
    rt.println(AllotmentLine(allotment))?;
    let mut line = Line::new();
    let mut slots = [Envy {
        taker: 0,
        brew: 0,
        rival: 0,
    }; 16];
    let count = market.envies(allotment, &mut line, &mut slots);
    println!(rt; "envies {count}")?;
    while let Some(envy) = line.take(&slots) {
        rt.println(EnvyLine(envy))?;
    }
    match market.lowest_envious(allotment) {
        Some(taker) => println!(rt; "lowest taker {taker}")?,
        None => rt.println("nobody envies")?,
    }
    Ok(())
}

/// Makes a book of so many items with a chooser for each card.
// Not a function that answers the book: it would be copied, with its whole table.
fn fill_book<B: OrderBook>(book: &mut B, items: usize, cards: &[&[u8]]) -> anyhow::Result<()> {
    fill(book, items, cards).map_err(|_| anyhow!("a card is refused"))
}

/// Prints the choices of a round, and what there is to say of the allotment written by hand.
// Not inlined: the books of all rounds would lie on the stack at once.
#[inline(never)]
fn print_round<R: CardReader + Drop>(rt: &HostRuntime, round: Round<'_, R>) -> anyhow::Result<()> {
    rt.println(round.title)?;
    let mut takers = CardBook::new(WrittenList);
    fill_book(&mut takers, round.brews.len(), round.takers)?;
    let mut brews = CardBook::new(round.kind);
    fill_book(&mut brews, round.takers.len(), round.brews)?;
    let market = Market {
        figures: Figures::new(round.brews.len(), round.opened, round.lots).context(
            "the figures are outside their limits",
        )?,
        takers: &takers,
        brews: &brews,
    };
    print_choices(rt, &market)?;
    if let Some(allotment) = round.by_hand {
        print_envies(rt, &market, allotment)?;
    }
    Ok(())
}

fn run(rt: &HostRuntime) -> anyhow::Result<()> {
    print_round(
        rt,
        Round {
            title: "six takers, five brews, three opened, two lots each",
            opened: 3,
            lots: 2,
            takers: &SIX_TAKERS,
            brews: &FIVE_BREWS,
            kind: WrittenList,
            by_hand: None,
        },
    )?;
    print_round(
        rt,
        Round {
            title: "three takers, three brews, one lot each",
            opened: 3,
            lots: 1,
            takers: &THREE_TAKERS,
            brews: &THREE_BREWS,
            kind: Points,
            by_hand: None,
        },
    )?;
    print_round(
        rt,
        Round {
            title: "six takers, three brews, two lots each",
            opened: 3,
            lots: 2,
            takers: &SIX_OTHERS,
            brews: &THREE_OTHERS,
            kind: WrittenList,
            by_hand: Some(&BY_HAND),
        },
    )
}

fn main(rt: HostRuntime) -> anyhow::Result<()> {
    run(&rt)
}
