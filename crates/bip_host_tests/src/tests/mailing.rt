//! Inboxes: three writers in threads, of each of whom all messages come, once each and in order.
ghost use Rattle.std.specs.Prelude.{All};
ghost use Rattle.bip_host.specs.Posting.{IsReaderOf, IsWriterOf};

use bip_host::{Inbox, Reader, Writer};
use std::alloc::{AllocError, Global};
use std::sync::Wait;
use std::test::*;
use std::thread;
use std::thread::Threads;

/// Who wrote a message, and how many that one wrote before.
type Note = (usize, u32);

const WRITERS: usize = 3;

const EACH: u32 = 1000;

/// A writer with its inbox and its number.
#[derive(Drop)]
struct Outlet<'a> {
    inbox: &'a Inbox<Note>,
    writer: Writer<Note>,
    from: usize,
    ghost fits: { IsWriterOf inbox.now writer },
}

impl<'a> Outlet<'a> {
    fn of(inbox: &'a Inbox<Note>, writer: Writer<Note>, from: usize) -> Outlet<'a>
        requires { IsWriterOf inbox.now writer }
    {
        Outlet {
            inbox,
            writer,
            from,
        }
    }

    /// Puts a message, and says whether there was memory for it.
    fn send<W: Wait>(&mut self, rt: &W, number: u32) -> bool {
        let Outlet {
            inbox,
            writer,
            from,
        } = self;
        inbox.put(rt, writer, (*from, number)).is_ok()
    }
}

/// The reader with its inbox.
#[derive(Drop)]
struct Intake<'a> {
    inbox: &'a Inbox<Note>,
    reader: Reader<Note>,
    ghost fits: { IsReaderOf inbox.now reader },
}

impl<'a> Intake<'a> {
    fn of(inbox: &'a Inbox<Note>, reader: Reader<Note>) -> Intake<'a>
        requires { IsReaderOf inbox.now reader }
    {
        Intake { inbox, reader }
    }

    fn receive<W: Wait>(&mut self, rt: &W) -> Option<Note> {
        let Intake { inbox, reader } = self;
        inbox.take(rt, reader)
    }
}

/// Joins each writer to its inbox, with its place as its number.
fn outlets<'a>(
    alloc: Global,
    inbox: &'a Inbox<Note>,
    writers: Vec<Writer<Note>>,
) -> Result<Vec<Outlet<'a>>, AllocError>
    requires { All (IsWriterOf inbox.now) writers.items }
{
    let mut outlets = Vec::with_capacity(alloc, writers.len())?;
    for writer in writers {
        let from = outlets.len();
        outlets.push(Outlet::of(inbox, writer, from))?;
    }
    Ok(outlets)
}

/// Puts all messages of one writer, and says how many were put.
fn write_all<W: Wait>(rt: &W, mut outlet: Outlet<'_>) -> usize {
    (0..EACH).filter(|number| outlet.send(rt, *number)).count()
}

/// Lets each writer put its messages in a thread of its own, and waits for all.
fn write_in_threads<R: Threads + Wait + Sync>(rt: &R, outlets: Vec<Outlet<'_>>) -> Option<usize> {
    let put = thread::map_vec(rt, outlets, &|outlet| write_all(rt, outlet)).ok()?;
    Some(
        put.iter()
            .fold(0, |sum: usize, each| sum.saturating_add(*each)),
    )
}

/// Takes all messages, and says how many came, or none where one came out of its order.
fn take_all<W: Wait>(rt: &W, mut intake: Intake<'_>) -> Option<u32> {
    let mut next = [0; WRITERS];
    let mut count: u32 = 0;
    for _ in 0..4 * EACH {
        let Some((from, number)) = intake.receive(rt) else {
            break;
        };
        if from >= WRITERS || next[from] != number {
            return None;
        }
        next[from] = number.saturating_add(1);
        count = count.saturating_add(1);
    }
    Some(count)
}

#[test]
fn each_message_comes_once_and_in_its_writers_order(rt: HostRuntime) -> Result<(), Fail> {
    let (inbox, writers, reader) = Inbox::new(rt.alloc(), WRITERS)?;
    let outlets = outlets(rt.alloc(), &inbox, writers)?;
    assert_eq!(rt; write_in_threads(&rt, outlets), Some(3000));
    let intake = Intake::of(&inbox, reader);
    assert_eq!(rt; take_all(&rt, intake), Some(3000));
    Ok(())
}
