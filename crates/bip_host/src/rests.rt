//! How far a thread's turns are ahead of those of its host's other threads, and how it gives way
//! after one that did nothing.
ghost use Rattle.std.specs.Prelude.{◌≡◌, ◌↔◌, IsTrue};
ghost use Rattle.bip_host.specs.Rests.{IsAhead, counted_turn, idles, stirs};

use std::sync::atomic::{AtomicU64, Ordering};
use std::{hint, thread};

/// After how many turns a thread tells the others of them, and learns how many these have made.
const TURNS_A_WORD: u32 = 8;

/// How many turns more than the others on average are none too many.
const LEAD: u64 = 8;

/// After how many turns one behind another that did nothing that is one more: where nothing is left
/// to do for anybody, who waits for others only burns what other programs could have.
const IDLE_TURNS_A_LEAD: u32 = 256;

/// How many turns the threads of a host have made together that make turns still, as far as they
/// told, and how many threads these are. Threads race: no contract rests on it.
#[derive(Drop)]
pub(crate) struct Strides {
    made: AtomicU64,
    threads: AtomicU64,
}

impl Strides {
    /// Those of no threads.
    pub(crate) fn new() -> Strides {
        Strides {
            made: AtomicU64::new(0),
            threads: AtomicU64::new(0),
        }
    }

    /// So many threads begin.
    pub(crate) fn begin(&self, threads: usize) {
        self.threads.fetch_add(threads as u64, Ordering::SeqCst);
    }

    /// A thread has made so many turns more.
    fn add(&self, turns: u32) {
        self.made.fetch_add(u64::from(turns), Ordering::SeqCst);
    }

    /// How many turns a thread has made on average.
    fn average(&self) -> u64 {
        self.made.load(Ordering::SeqCst) / self.threads.load(Ordering::SeqCst).max(1)
    }

    /// A thread makes no more turns, which told of so many.
    fn leave(&self, turns: u32) {
        self.made.fetch_sub(u64::from(turns), Ordering::SeqCst);
        self.threads.fetch_sub(1, Ordering::SeqCst);
    }
}

/// How many turns a thread has made, how many the threads of its host on average, as far as it
/// learned, and how many of its last ones, one behind another, did nothing.
#[derive(Clone, Copy)]
pub(crate) struct Rest<'h> {
    strides: Option<&'h Strides>,
    made: u32,
    average: u64,
    streak: u32,
}

impl<'h> Rest<'h> {
    /// Of a thread that makes its turns beside these, or alone.
    pub(crate) fn beside(strides: Option<&'h Strides>) -> Rest<'h>
        ensures { result ≡ record { strides = strides.entry; made = 0; average = 0; streak = 0 } }
    {
        Rest {
            strides,
            made: 0,
            average: 0,
            streak: 0,
        }
    }

    /// A turn did something.
    pub(crate) fn stir(&mut self)
        ensures { self.new ≡ record (stirs self.old) { average = self.new.average } }
    {
        self.streak = 0;
        self.count();
    }

    /// A turn did nothing: where the thread is ahead it asks the scheduler for another one, and
    /// else gives way to what shares the processor's core.
    pub(crate) fn give_way(&mut self)
        ensures { self.new ≡ record (idles self.old) { average = self.new.average } }
    {
        self.streak = self.streak.saturating_add(1);
        self.count();
        if self.is_ahead() {
            thread::yield_now();
            self.learn();
        } else {
            hint::spin_loop();
        }
    }

    /// Whether the thread has made more turns than is good.
    fn is_ahead(&self) -> bool
        ensures { IsTrue result ↔ IsAhead self.now }
    {
        let lead = LEAD + u64::from(self.streak / IDLE_TURNS_A_LEAD);
        u64::from(self.made).saturating_sub(self.average) > lead
    }

    /// Counts a turn, tells the others of the last ones where these are enough, and learns of
    /// theirs then.
    fn count(&mut self)
        ensures { self.new ≡ record (counted_turn self.old) { average = self.new.average } }
    {
        self.made = self.made.saturating_add(1);
        if self.made % TURNS_A_WORD == 0 {
            if let Some(strides) = self.strides {
                strides.add(TURNS_A_WORD);
            }
            self.learn();
        }
    }

    /// Learns how many turns a thread has made on average: alone as many as this one.
    fn learn(&mut self)
        ensures { self.new ≡ record self.old { average = self.new.average } }
    {
        self.average = match self.strides {
            Some(strides) => strides.average(),
            None => u64::from(self.made),
        };
    }

    /// The thread makes no more turns.
    pub(crate) fn leave(&self) {
        if let Some(strides) = self.strides {
            strides.leave(self.made - self.made % TURNS_A_WORD);
        }
    }
}
