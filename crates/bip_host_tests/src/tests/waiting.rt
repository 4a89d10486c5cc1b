//! Grants of row words, which wait beside the book for those with lower serials.
use super::{COMPETE_TWICE, Wanted, over_plan, request};
use bip_host::{
    Draw, Drawn, Entry, HostFault, Kind, Outcome, SharedBook, Tables, WaitingBook, WordSeat,
    can_have, open_words,
};
use bip_model::InterId;
use bip_partition::Plan;
use bip_replay::{Book, BookFault};
use std::alloc::Global;
use std::process::Abort;

/// What x and y of the two that compete want, for the shared component's moves 1 and 2.
const X: ((u16, u16), &[Wanted]) = ((0, 0), &[(0, 1, true), (2, 1, true)]);

const Y: ((u16, u16), &[Wanted]) = ((1, 1), &[(1, 1, true), (2, 2, true)]);

/// A move of x that the model hasn't.
const FAR: ((u16, u16), &[Wanted]) = ((0, 0), &[(0, 9, true), (2, 1, true)]);

fn draw(
    rt: &impl Abort,
    alloc: Global,
    seat: &mut WordSeat<'_>,
    (names, wants): ((u16, u16), &[Wanted]),
) -> Drawn {
    match seat.draw(request(rt, alloc, names, wants)) {
        Draw::Granted(drawn) => drawn,
        _ => panic!(rt; "no grant"),
    }
}

/// What is drawn for two requests, one after the other, from a plan's word table, each with a seat
/// of its own.
fn draw_both(
    rt: &impl Abort,
    alloc: Global,
    plan: &Plan,
    first: ((u16, u16), &[Wanted]),
) -> (Drawn, Drawn) {
    assert!(rt; can_have(plan, Kind::Central, Tables::Words));
    let (table, seat) = open_words(alloc, plan).expect(rt, "memory");
    let mut one = WordSeat::of(&table, seat);
    let mut two = one.split();
    let lower = draw(rt, alloc, &mut one, first);
    let upper = draw(rt, alloc, &mut two, Y);
    assert_eq!(rt; (one.count_drawn(), two.count_drawn()), (1, 1));
    assert_eq!(rt; (lower.serial(), upper.serial()), (0, 1));
    (lower, upper)
}

/// A new book with two places.
fn book<'m>(rt: &impl Abort, alloc: Global, plan: &'m Plan) -> WaitingBook<'m> {
    let book = SharedBook::of(Book::start(alloc, plan.model(), 0).expect(rt, "memory"));
    WaitingBook::of(alloc, book, 2).expect(rt, "memory")
}

/// Whether a grant stands in the book, by its interaction; else whether it waits.
#[derive(Clone, Copy, Debug, PartialEq, Eq)]
enum Found {
    Entry(InterId),
    Waits,
    Refused,
}

fn seen_as(outcome: &Outcome) -> Found {
    match outcome {
        Outcome::Entered(entry) => Found::Entry(inter_of(entry)),
        Outcome::Waits => Found::Waits,
        Outcome::Refused => Found::Refused,
    }
}

fn inter_of(entry: &Entry) -> InterId {
    entry.inter()
}

/// A grant is laid at a place, and this has become of it.
fn enters(
    rt: &impl Abort,
    book: &mut WaitingBook<'_>,
    place: usize,
    drawn: Drawn,
    expected: Found,
) {
    match book.enter(place, drawn) {
        Ok(outcome) => assert_eq!(rt; seen_as(&outcome), expected),
        Err(_) => panic!(rt; "it can't be laid"),
    }
}

/// The one with the higher serial comes first, and waits.
fn in_order<W: Abort>(rt: &W, alloc: Global, plan: &Plan, _given: ()) {
    let (lower, upper) = draw_both(rt, alloc, plan, X);
    let mut book = book(rt, alloc, plan);
    enters(rt, &mut book, 1, upper, Found::Waits);
    enters(rt, &mut book, 0, lower, Found::Entry(InterId(0)));
    assert_eq!(rt; seen_as(&book.look(1)), Found::Entry(InterId(1)));
    assert_eq!(rt; book.next(), 2);
}

#[test]
fn the_book_takes_grants_in_order_of_serial(rt: HostRuntime) {
    over_plan(&rt, rt.alloc(), COMPETE_TWICE, (), in_order);
}

/// Both are laid, and nobody looks for them.
fn left<W: Abort>(rt: &W, alloc: Global, plan: &Plan, _given: ()) {
    let (lower, upper) = draw_both(rt, alloc, plan, X);
    let mut book = book(rt, alloc, plan);
    assert!(rt; book.lay(1, upper).is_ok());
    assert!(rt; book.lay(0, lower).is_ok());
    assert_eq!(rt; book.next(), 0);
    closes(rt, book, 2);
}

/// The book has so many grants at its end, all by their serials.
fn closes(rt: &impl Abort, book: WaitingBook<'_>, count: u64) {
    let (book, next) = book.close();
    assert_eq!(rt; next, count);
    let grants = book.into_grants().expect(rt, "a run");
    assert_eq!(rt; grants.len() as u64, count);
}

#[test]
fn what_is_left_at_its_place_is_in_the_book_at_the_end(rt: HostRuntime) {
    over_plan(&rt, rt.alloc(), COMPETE_TWICE, (), left);
}

/// The book doesn't take the first; the second waits for it.
fn refused<W: Abort>(rt: &W, alloc: Global, plan: &Plan, _given: ()) {
    let (lower, upper) = draw_both(rt, alloc, plan, FAR);
    let mut book = book(rt, alloc, plan);
    enters(rt, &mut book, 0, lower, Found::Refused);
    enters(rt, &mut book, 1, upper, Found::Waits);
    let (book, next) = book.close();
    assert_eq!(rt; next, 0);
    assert!(rt;
        matches!(
            book.into_grants(),
            Err(HostFault::NotARun(BookFault::Number(_, 1)))
        )
    );
}

#[test]
fn nothing_is_entered_behind_what_the_book_refuses(rt: HostRuntime) {
    over_plan(&rt, rt.alloc(), COMPETE_TWICE, (), refused);
}

/// A place that waits takes no second grant, and there is none behind the last.
fn twice<W: Abort>(rt: &W, alloc: Global, plan: &Plan, _given: ()) {
    let (lower, upper) = draw_both(rt, alloc, plan, X);
    let mut book = book(rt, alloc, plan);
    assert!(rt; book.lay(1, upper).is_ok());
    let Err(lower) = book.lay(1, lower) else {
        panic!(rt; "the place isn't free")
    };
    assert!(rt; book.lay(2, lower).is_err());
}

#[test]
fn a_place_takes_one_grant(rt: HostRuntime) {
    over_plan(&rt, rt.alloc(), COMPETE_TWICE, (), twice);
}
