//! What is told on the way while seeds are explored.
ghost use Rattle.std.specs.Prelude.{◌≡◌, List, OnErr, OnOk, false, true};
ghost use Rattle.bipr.specs.Explored.{IsProgressAt, ends_hundredth};
ghost use Rattle.bipr.specs.Streams.{Put, PutsEach, texts};

use crate::commands::explore::ExploreArguments;
use crate::hosting::milliseconds_since;
use crate::streams::{Stream, put};
use crate::wording::{progress_text, timed_text};
use std::alloc::{AllocError, Global};
use std::time::{Clock, Instant};

/// How long nothing may be told before a line with the time is, in milliseconds.
const QUIET: u64 = 1000;

/// How fast seeds are explored: so many a second, and so many seconds for those that are left.
#[derive(Clone, Copy, Debug, PartialEq, Eq)]
pub struct Pace {
    pub rate: u64,
    pub left: u64,
}

/// When the exploring began, if the clock can be read, and so many milliseconds after that the last
/// line was told, or had no memory.
#[derive(Drop)]
pub struct Progress {
    begun: Option<Instant>,
    last: u64,
}

impl Progress {
    /// Progress that begins now.
    pub fn begin<C: Clock>(rt: &C) -> Progress {
        Progress {
            begun: Instant::now(rt).ok(),
            last: 0,
        }
    }

    /// Tells that so many seeds are done, if that is asked for: where another hundredth of them is,
    /// and with the time where nothing was told for more than a second, and the next seed is still
    /// to be explored. Whether a line is out decides nothing, nor does memory for one with the
    /// time.
    pub fn tell<C: Clock, E: Stream>(
        &mut self,
        rt: &C,
        alloc: Global,
        asked: &ExploreArguments<'_>,
        done: u32,
        is_next_open: bool,
        errors: &mut E,
    ) -> Result<(), AllocError>
        ensures ok { OnOk result ((told : List Put) × PutsEach E.writes errors.old told errors.new
            × IsProgressAt asked.now done (texts told)) }
        ensures err { OnErr result (errors.new ≡ errors.old) }
    {
        if !asked.is_told {
            return Ok(());
        }
        if ends_hundredth(asked.seeds, done) {
            let text = progress_text(alloc, done, asked.seeds)?;
            put(errors, text.as_slice());
            self.last = self.milliseconds(rt);
        } else if is_next_open {
            self.tell_time(rt, alloc, asked, done, errors);
        }
        Ok(())
    }

    // Tells so with the time, where nothing was told for more than a second.
    fn tell_time<C: Clock, E: Stream>(
        &mut self,
        rt: &C,
        alloc: Global,
        asked: &ExploreArguments<'_>,
        done: u32,
        errors: &mut E,
    )
        requires told { asked.now.is_told ≡ true }
        requires between { ends_hundredth asked.now.seeds done ≡ false }
        ensures { (told : List Put) × PutsEach E.writes errors.old told errors.new
            × IsProgressAt asked.now done (texts told) }
    {
        let now = self.milliseconds(rt);
        if now.saturating_sub(self.last) <= QUIET {
            return;
        }
        self.last = now;
        let events = u64::from(done) * u64::from(asked.draws.count);
        let pace = pace_of(done, asked.seeds, now);
        if let Ok(text) = timed_text(alloc, done, asked.seeds, events, &pace) {
            put(errors, text.as_slice());
        }
    }

    // How long ago it began, in milliseconds; 0 where the clock can't be read.
    fn milliseconds<C: Clock>(&self, rt: &C) -> u64 {
        match &self.begun {
            Some(begun) => milliseconds_since(rt, begun),
            None => 0,
        }
    }
}

// The pace at which so many of the seeds were done in so many milliseconds.
fn pace_of(done: u32, seeds: u32, milliseconds: u64) -> Pace {
    let done = u128::from(done.max(1));
    let milliseconds = u128::from(milliseconds.max(1));
    let left = u128::from(seeds).saturating_sub(done) * milliseconds / done / 1000;
    Pace {
        rate: u64::try_from(done * 1000 / milliseconds).unwrap_or(u64::MAX),
        left: u64::try_from(left).unwrap_or(u64::MAX),
    }
}

// Whether another hundredth of the seeds is done with this one.
fn ends_hundredth(seeds: u32, seed: u32) -> bool
    ensures { result ≡ ends_hundredth seeds seed }
{
    let (seeds, seed) = (u64::from(seeds), u64::from(seed));
    seeds > 0 && seed.saturating_sub(1) * 100 / seeds < seed * 100 / seeds
}
