use super::writing::are_written;
use super::{OWN_WAYS, SHARED, THREE_WAYS, grants, over};
use bip_model::{Model, Number};
use bip_replay::Book;
use std::alloc::Global;
use std::process::Abort;

/// What is told of grants that are appended to a book.
struct Appended {
    /// The model of the book, and the one over which the grants are named.
    models: (&'static str, &'static str),
    base: Number,
    /// The line of each grant, and what is told of it.
    lines: &'static [(&'static str, &'static str)],
    /// The grants that the book then holds.
    held: &'static str,
}

/// Appends the grant of a line: what is told of it.
fn append(
    rt: &impl Abort,
    alloc: Global,
    book: &mut Book<'_>,
    named: &Model,
    line: &str,
) -> String {
    let grant = grants(rt, alloc, named, line).pop().expect(rt, "a grant");
    let told = match book.append(grant) {
        Ok(before) => format!(in alloc; "behind {before}"),
        Err(fault) => format!(in alloc; "{fault}"),
    };
    told.expect(rt, "memory")
}

fn append_all(
    rt: &impl Abort,
    alloc: Global,
    book: &mut Book<'_>,
    named: &Model,
    lines: &[(&str, &str)],
) {
    for (line, told) in lines {
        let found = append(rt, alloc, book, named, line);
        assert_eq!(rt; found.as_str(), *told, "{line}");
    }
}

fn keep(rt: &impl Abort, alloc: Global, model: &Model, (named, what): (&Model, &Appended)) {
    assert!(rt; what.base < Number::MAX);
    let mut book = Book::start(alloc, model, what.base).expect(rt, "memory");
    append_all(rt, alloc, &mut book, named, what.lines);
    are_written(rt, alloc, model, book.grants(), what.held);
    drop(book);
}

fn keep_named(rt: &impl Abort, alloc: Global, named: &Model, what: &Appended) {
    over(rt, alloc, what.models.0, (named, what), keep);
}

/// Appends to a new book, and compares what is told and what it holds.
fn are_kept(rt: &impl Abort, alloc: Global, what: &Appended) {
    over(rt, alloc, what.models.1, what, keep_named);
}

#[test]
fn a_book_holds_what_was_appended(rt: HostRuntime) {
    const APPENDED: Appended = Appended {
        models: (OWN_WAYS, OWN_WAYS),
        base: 6,
        lines: &[
            ("grant y B:7", "behind 0"),
            ("grant y B:8", "not enabled"),
            ("grant x A:7", "behind 1"),
        ],
        held: "grant y B:7\ngrant x A:7\n",
    };
    are_kept(&rt, rt.alloc(), &APPENDED);
}

#[test]
fn a_refused_grant_leaves_the_book_as_it_was(rt: HostRuntime) {
    const REFUSED: Appended = Appended {
        models: (SHARED, SHARED),
        base: 0,
        lines: &[
            ("grant x A:1 B:3 R:2", "component 1 expected 1"),
            ("grant x A:1", "parties"),
            ("grant x A:1 R:1", "behind 0"),
            ("grant y A:1 see R:9", "not enabled"),
        ],
        held: "grant x A:1 R:1\n",
    };
    are_kept(&rt, rt.alloc(), &REFUSED);
}

/// The lines name a third component and a third interaction.
#[test]
fn what_the_model_lacks_is_not_enabled_or_no_party(rt: HostRuntime) {
    const LACKED: Appended = Appended {
        models: (OWN_WAYS, THREE_WAYS),
        base: 0,
        lines: &[
            ("grant z C:1", "not enabled"),
            ("grant x A:1 see C:9", "parties"),
            ("grant y B:1 C:1", "parties"),
            ("grant x A:2 see C:9", "component 0 expected 1"),
            ("grant x A:1", "behind 0"),
        ],
        held: "grant x A:1\n",
    };
    are_kept(&rt, rt.alloc(), &LACKED);
}
