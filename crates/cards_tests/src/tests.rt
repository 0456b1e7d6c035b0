use cards::points::Points;
use cards::written_list::WrittenList;
use orders::book::OrderBook;
use orders::card_book::CardBook;
use orders::fault::{BookFault, CardFault, RefusedCard};
use orders::reader::CardReader;
use refusal::Fault;
use std::test::Fail;

/// A card of three entries below 256.
fn card(entries: [u8; 3]) -> [u8; 6] {
    [0, entries[0], 0, entries[1], 0, entries[2]]
}

/// The number and the place by which a call is refused.
fn refused(answer: Result<(), BookFault>) -> Option<(u8, usize)> {
    answer.err().map(|fault| (fault.number(), fault.place()))
}

/// The places of items 1, 2 and 3 with a chooser.
fn places<B: OrderBook>(book: &B, chooser: usize) -> [Option<u16>; 3] {
    [1, 2, 3].map(|item| book.place(chooser, item))
}

#[test]
fn a_list_is_read_from_best_to_worst(rt: HostRuntime) -> Result<(), Fail> {
    let mut book = CardBook::new(WrittenList);
    book.clear(2, 3)?;
    book.enter(2, &card([2, 3, 1]))?;
    assert_eq!(rt; places(&book, 2), [3, 1, 2].map(Some));
    assert_eq!(rt; places(&book, 1), [None; 3]);
    Ok(())
}

#[test]
fn points_are_read_with_ties_by_item_number(rt: HostRuntime) -> Result<(), Fail> {
    let mut book = CardBook::new(Points);
    book.clear(1, 3)?;
    book.enter(1, &card([7, 9, 7]))?;
    assert_eq!(rt; places(&book, 1), [2, 1, 3].map(Some));
    book.enter(1, &card([0, 0, 0]))?;
    assert_eq!(rt; places(&book, 1), [1, 2, 3].map(Some));
    Ok(())
}

#[test]
fn the_higher_byte_of_points_counts(rt: HostRuntime) -> Result<(), Fail> {
    let mut book = CardBook::new(Points);
    book.clear(1, 3)?;
    book.enter(1, &[0, 255, 1, 0, 255, 255])?;
    assert_eq!(rt; places(&book, 1), [3, 2, 1].map(Some));
    Ok(())
}

#[test]
fn the_first_bad_entry_of_a_list_decides(rt: HostRuntime) -> Result<(), Fail> {
    let mut book = CardBook::new(WrittenList);
    book.clear(1, 3)?;
    for (entries, refusal) in [
        ([2, 2, 0], (3, 2)),
        ([0, 1, 2], (2, 1)),
        ([1, 2, 0], (2, 3)),
        ([4, 1, 2], (2, 1)),
        ([1, 2, 4], (2, 3)),
        ([1, 2, 1], (3, 3)),
        ([0, 0, 0], (2, 1)),
    ] {
        assert_eq!(rt;
            refused(book.enter(1, &card(entries))),
            Some(refusal),
            "{entries:?}"
        );
    }
    assert_eq!(rt; refused(book.enter(1, &[0, 2, 1, 1, 0, 1])), Some((2, 2)));
    assert_eq!(rt; places(&book, 1), [None; 3]);
    Ok(())
}

#[test]
fn a_card_of_the_wrong_length_is_refused(rt: HostRuntime) -> Result<(), Fail> {
    let mut list = CardBook::new(WrittenList);
    let mut points = CardBook::new(Points);
    list.clear(1, 3)?;
    points.clear(1, 3)?;
    for card in [&[0, 2, 0, 3, 0][..], &[0, 2, 0, 3, 0, 1, 0], &[]] {
        assert_eq!(rt; refused(list.enter(1, card)), Some((1, 0)));
        assert_eq!(rt; refused(points.enter(1, card)), Some((1, 0)));
    }
    assert_eq!(rt; places(&points, 1), [None; 3]);
    Ok(())
}

#[test]
fn sizes_are_accepted_up_to_the_limits(rt: HostRuntime) -> Result<(), Fail> {
    let mut book = CardBook::new(WrittenList);
    for (choosers, items) in [
        (432, 16),
        (16, 432),
        (1, 1),
        (1, 432),
        (432, 1),
        (32, 216),
        (83, 83),
    ] {
        book.clear(choosers, items)?;
        assert_eq!(rt; book.choosers(), choosers);
        assert_eq!(rt; book.items(), items);
    }
    Ok(())
}

#[test]
fn other_sizes_are_refused_and_change_nothing(rt: HostRuntime) -> Result<(), Fail> {
    let mut book = CardBook::new(WrittenList);
    book.clear(2, 3)?;
    book.enter(1, &card([2, 3, 1]))?;
    for (choosers, items) in [
        (0, 3),
        (3, 0),
        (433, 1),
        (1, 433),
        (31, 223),
        (223, 31),
        (432, 17),
        (17, 432),
        (usize::MAX, usize::MAX),
    ] {
        assert_eq!(rt; refused(book.clear(choosers, items)), Some((4, 0)));
        assert_eq!(rt; book.choosers(), 2);
        assert_eq!(rt; book.items(), 3);
        assert_eq!(rt; places(&book, 1), [3, 1, 2].map(Some));
    }
    Ok(())
}

#[test]
fn a_fresh_book_has_neither_choosers_nor_items(rt: HostRuntime) -> Result<(), Fail> {
    let mut book = CardBook::new(Points);
    assert_eq!(rt; book.choosers(), 0);
    assert_eq!(rt; book.items(), 0);
    assert_eq!(rt; book.place(1, 1), None);
    assert_eq!(rt; refused(book.enter(1, &card([1, 2, 3]))), Some((5, 0)));
    assert_eq!(rt; book.choosers(), 0);
    Ok(())
}

#[test]
fn a_chooser_or_an_item_out_of_range_is_told(rt: HostRuntime) -> Result<(), Fail> {
    let mut book = CardBook::new(WrittenList);
    book.clear(2, 3)?;
    assert_eq!(rt; refused(book.enter(0, &card([2, 3, 1]))), Some((5, 0)));
    assert_eq!(rt; refused(book.enter(3, &card([2, 3, 1]))), Some((5, 0)));
    assert_eq!(rt; refused(book.enter(3, &[])), Some((5, 0)));
    book.enter(2, &card([2, 3, 1]))?;
    assert_eq!(rt; book.place(2, 0), None);
    assert_eq!(rt; book.place(2, 4), None);
    assert_eq!(rt; book.place(0, 1), None);
    assert_eq!(rt; book.place(3, 1), None);
    assert_eq!(rt; book.place(usize::MAX, usize::MAX), None);
    Ok(())
}

#[test]
fn a_refused_card_is_told_with_its_chooser(rt: HostRuntime) -> Result<(), Fail> {
    let mut book = CardBook::new(WrittenList);
    book.clear(9, 3)?;
    let fault = CardFault::Repeated { entry: 2 };
    assert_eq!(rt;
        book.enter(7, &card([2, 2, 0])),
        Err(BookFault::Card(RefusedCard { chooser: 7, fault }))
    );
    Ok(())
}

#[test]
fn a_card_replaces_the_one_before(rt: HostRuntime) -> Result<(), Fail> {
    let mut book = CardBook::new(WrittenList);
    book.clear(3, 3)?;
    book.enter(1, &card([1, 2, 3]))?;
    book.enter(2, &card([2, 3, 1]))?;
    book.enter(3, &card([3, 2, 1]))?;
    book.enter(2, &card([3, 1, 2]))?;
    assert_eq!(rt; places(&book, 1), [1, 2, 3].map(Some));
    assert_eq!(rt; places(&book, 2), [2, 3, 1].map(Some));
    assert_eq!(rt; places(&book, 3), [3, 2, 1].map(Some));
    Ok(())
}

#[test]
fn a_refused_card_leaves_every_place(rt: HostRuntime) -> Result<(), Fail> {
    let mut book = CardBook::new(WrittenList);
    book.clear(2, 3)?;
    book.enter(1, &card([2, 3, 1]))?;
    book.enter(2, &card([1, 3, 2]))?;
    assert_eq!(rt; refused(book.enter(1, &card([3, 2, 3]))), Some((3, 3)));
    assert_eq!(rt; refused(book.enter(2, &[0, 1])), Some((1, 0)));
    assert_eq!(rt; places(&book, 1), [3, 1, 2].map(Some));
    assert_eq!(rt; places(&book, 2), [1, 3, 2].map(Some));
    Ok(())
}

#[test]
fn a_book_cleared_again_forgets_all(rt: HostRuntime) -> Result<(), Fail> {
    let mut book = CardBook::new(Points);
    book.clear(2, 3)?;
    book.enter(1, &card([7, 9, 7]))?;
    book.enter(2, &card([1, 2, 3]))?;
    book.clear(2, 3)?;
    assert_eq!(rt; places(&book, 1), [None; 3]);
    assert_eq!(rt; places(&book, 2), [None; 3]);
    book.enter(2, &card([9, 7, 8]))?;
    assert_eq!(rt; places(&book, 1), [None; 3]);
    assert_eq!(rt; places(&book, 2), [1, 3, 2].map(Some));
    Ok(())
}

#[test]
fn a_refused_reading_leaves_the_row(rt: HostRuntime) -> Result<(), Fail> {
    let mut row = [7u16; 3];
    assert_eq!(rt;
        WrittenList.read(&card([2, 1, 2]), 1, &mut row),
        Err(CardFault::Repeated { entry: 3 })
    );
    assert_eq!(rt; row, [7, 7, 7]);
    assert_eq!(rt; Points.read(&[0, 1], 1, &mut row), Err(CardFault::Length));
    assert_eq!(rt; row, [7, 7, 7]);
    WrittenList.read(&card([2, 3, 1]), 1, &mut row)?;
    assert_eq!(rt; row, [3, 1, 2]);
    Ok(())
}

#[test]
fn a_row_of_no_book_is_asked_for_no_card(rt: HostRuntime) -> Result<(), Fail> {
    let mut row = [7u16; 433];
    assert_eq!(rt;
        WrittenList.read(&[0; 866], 1, &mut row),
        Err(CardFault::Length)
    );
    assert_eq!(rt; Points.read(&[0; 866], 1, &mut row), Err(CardFault::Length));
    assert_eq!(rt; row, [7; 433]);
    Points.read(&[], 1, &mut [])?;
    Ok(())
}

/// The list of all 432 items from the last to the first.
fn backwards() -> [[u8; 2]; 432] {
    let mut card = [[0; 2]; 432];
    for (entry, item) in card.iter_mut().zip((1..=432u16).rev()) {
        *entry = item.to_be_bytes();
    }
    card
}

#[test]
fn a_list_of_the_most_items_is_read(rt: HostRuntime) -> Result<(), Fail> {
    let mut book = CardBook::new(WrittenList);
    book.clear(16, 432)?;
    book.enter(16, backwards().as_flattened())?;
    for item in 1..=432u16 {
        assert_eq!(rt; book.place(16, item.into()), Some(433 - item));
        assert_eq!(rt; book.place(15, item.into()), None);
    }
    Ok(())
}

#[test]
fn points_of_the_most_items_are_read(rt: HostRuntime) -> Result<(), Fail> {
    let mut book = CardBook::new(Points);
    book.clear(16, 432)?;
    book.enter(1, backwards().as_flattened())?;
    for item in 1..=432u16 {
        assert_eq!(rt; book.place(1, item.into()), Some(item));
    }
    Ok(())
}
