//! What a host runs for, where that is so many grants, and what its threads see of it.
ghost use Rattle.std.specs.Prelude.{◌≡◌, None, Some};

use crate::actors::Actor;
use crate::rests::{Rest, Strides};
use std::sync::atomic::{AtomicU64, Ordering};

/// After how many turns one behind another that did nothing a thread is quiet.
const QUIET_TURNS: u32 = 100_000;

/// After how many it is where a request of its actor is still open, whose answer may be lost.
const PATIENT_TURNS: u32 = 10_000_000;

/// How many grants a host runs for, how many its book had when that was noted last, and how many
/// of the threads that count aren't quiet. Threads race: no contract rests on the last two.
#[derive(Drop)]
pub(crate) struct Aim {
    wanted: u64,
    granted: AtomicU64,
    awake: AtomicU64,
}

impl Aim {
    /// So many grants, of which there is none so far.
    pub(crate) fn of(wanted: u64) -> Aim
        ensures { result.wanted ≡ wanted }
    {
        Aim {
            wanted,
            granted: AtomicU64::new(0),
            awake: AtomicU64::new(0),
        }
    }

    /// Notes how many grants the book has, which is locked.
    pub(crate) fn note_grants(&self, count: u64) {
        self.granted.store(count, Ordering::SeqCst);
    }

    /// Whether there are enough grants, or all threads that count are quiet.
    fn is_over(&self) -> bool {
        self.granted.load(Ordering::SeqCst) >= self.wanted || self.awake.load(Ordering::SeqCst) == 0
    }

    fn wake(&self) {
        self.awake.fetch_add(1, Ordering::SeqCst);
    }

    fn fall_quiet(&self) {
        self.awake.fetch_sub(1, Ordering::SeqCst);
    }
}

/// What a thread sees of its host's aim, if that has one: where it looks whether it is over, and
/// where it counts until it is quiet; and how it gives way. A thread that ends is quiet
/// (docs/HOST.md, "Turns").
pub struct Watch<'h> {
    aim: Option<&'h Aim>,
    counted_in: Option<&'h Aim>,
    /// How many turns did nothing since one did something, as far as that matters.
    idle: u32,
    is_quiet: bool,
    rest: Rest<'h>,
}

impl<'h> Watch<'h> {
    /// Of a thread that ends after its turns alone.
    pub fn nothing() -> Watch<'h>
        ensures { (result.aim ≡ None) × (result.counted_in ≡ None) }
    {
        Watch {
            aim: None,
            counted_in: None,
            idle: 0,
            is_quiet: false,
            rest: Rest::beside(None),
        }
    }

    /// Of a thread that counts.
    pub(crate) fn counted(aim: Option<&'h Aim>, strides: Option<&'h Strides>) -> Watch<'h>
        ensures { (result.aim ≡ aim.entry) × (result.counted_in ≡ aim.entry) }
    {
        if let Some(aim) = aim {
            aim.wake();
        }
        Watch {
            aim,
            counted_in: aim,
            idle: 0,
            is_quiet: false,
            rest: Rest::beside(strides),
        }
    }

    /// Of a thread that does all for those that count.
    pub(crate) fn beside(aim: Option<&'h Aim>, strides: Option<&'h Strides>) -> Watch<'h>
        ensures { (result.aim ≡ aim.entry) × (result.counted_in ≡ None) }
    {
        Watch {
            aim,
            counted_in: None,
            idle: 0,
            is_quiet: false,
            rest: Rest::beside(strides),
        }
    }

    /// Whether the thread ends before its turns.
    pub(crate) fn is_over(&self) -> bool {
        match self.aim {
            None => false,
            Some(aim) => aim.is_over(),
        }
    }

    /// A turn did something.
    pub(crate) fn stir(&mut self) {
        self.rest.stir();
        let Some(aim) = self.counted_in else {
            return;
        };
        if self.is_quiet {
            aim.wake();
        }
        self.idle = 0;
        self.is_quiet = false;
    }

    /// A turn did nothing: the thread gives way.
    pub(crate) fn give_way(&mut self) {
        self.rest.give_way();
    }

    /// The same: after enough the thread is quiet. Each time that so many are over its
    /// actor is asked whether a request of its own is open, for which it goes on.
    pub(crate) fn idle<A: Actor>(&mut self, actor: &A) {
        let Some(aim) = self.counted_in else {
            return;
        };
        if self.is_quiet {
            return;
        }
        self.idle = self.idle.saturating_add(1);
        let asks = self.idle % QUIET_TURNS == 0;
        if self.idle >= PATIENT_TURNS || (asks && !actor.has_open_request()) {
            self.is_quiet = true;
            aim.fall_quiet();
        }
    }
}

impl Drop for Watch<'_> {
    fn drop(self) {
        let Watch {
            aim: _,
            counted_in,
            idle: _,
            is_quiet,
            rest,
        } = self;
        rest.leave();
        if let Some(aim) = counted_in {
            if !is_quiet {
                aim.fall_quiet();
            }
        }
    }
}
