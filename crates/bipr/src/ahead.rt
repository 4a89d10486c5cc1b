//! Seeds that are explored ahead of the one whose turn it is, by threads.
ghost use Rattle.std.specs.Prelude.{◌≡◌, ◌+◌, ◌*◌, ◌<◌, ◌≤◌, ◌^◌, IfErr, IfNone, IfOk, IfSome};
ghost use Rattle.std.specs.Prelude.{OnErr, OnOk, length};
ghost use Rattle.bip_schedule.specs.Exploring.{AreSeedFigures, SeedFigures};
ghost use Rattle.bip_schedule.specs.declared.exploring.ExploreFault.TheVariants.{Memory};
ghost use Rattle.bipr.specs.Ahead.{AreAhead, AreExploredBehind, IsBlockBehind, block_size};
ghost use Rattle.bipr.specs.Ahead.{round_end};
ghost use Rattle.bipr.specs.Resolvers.{IsSharedAtFirst};

use crate::commands::explore::ExploreArguments;
use crate::resolvers::Resolver;
use bip_bank::Central;
use bip_forks::Forks;
use bip_partition::Plan;
use bip_ring::Ring;
use bip_schedule::{Checked, ExploreFault, explore_seed};
use std::alloc::Global;
use std::thread;
use std::thread::Threads;

/// The most threads where their number isn't asked for.
const MOST_JOBS: u32 = 256;

/// How many events a block has at most, unless one seed has more: they take some tenths of a
/// second, beside which making a thread takes little.
const LARGEST_BLOCK: u32 = 4_000_000;

/// In how many rounds about the seeds that are left are explored, so that no thread waits long for
/// another one, and progress is told at times.
const ROUNDS: u32 = 8;

/// What was explored ahead, in a round of blocks: behind the first `from` seeds stands a block of
/// `size` seeds for each thread, of which the first were explored, with these figures. The round's
/// last seed is the one with the number `last`, whatever was explored.
#[derive(Drop)]
pub struct Ahead {
    from: u32,
    size: u32,
    last: u32,
    blocks: Vec<Checked>,
}

impl Ahead {
    /// Nothing that was explored ahead, in a round with this last seed.
    pub fn nothing(alloc: Global, last: u32) -> Ahead
        ensures none { length result.blocks.items ≡ 0 }
        ensures sized { 0 < result.size }
        ensures first { result.from ≡ 0 }
        ensures last { result.last ≡ last }
    {
        Ahead {
            from: 0,
            size: 1,
            last,
            blocks: Vec::new(alloc),
        }
    }

    /// What was explored of the block behind so many seeds: some of them.
    fn block_behind(&self, done: u32) -> Option<&Checked>
        requires { 0 < self.now.size }
        ensures some { IfSome result (λ block. IsBlockBehind self.now done block.now) }
        ensures none { IfNone result ((block : SeedFigures)
            → ¬ IsBlockBehind self.now done block) }
    {
        let place = done.checked_sub(self.from)?;
        if place % self.size != 0 {
            return None;
        }
        let Some(block) = self.blocks.get((place / self.size) as usize) else {
            return None;
        };
        if block.seeds() == 0 {
            return None;
        }
        Some(block)
    }
}

/// In how many threads seeds are explored: as many as are asked for, and else one a processor, if
/// the system tells how many there are.
pub fn jobs_of<R: Threads>(rt: &R, asked: Option<u32>) -> u32
    ensures asked { IfSome asked (λ most. result ≡ most) }
    ensures few { IfNone asked (result ≤ 256) }
{
    if let Some(jobs) = asked {
        return jobs;
    }
    match thread::available_parallelism(rt) {
        Ok(processors) => u32::try_from(processors.get())
            .unwrap_or(MOST_JOBS)
            .min(MOST_JOBS),
        Err(_) => 1,
    }
}

/// Explores a round of seeds ahead, from the one behind so many, where that stands behind the last
/// round, in no more threads than are asked for; unless one thread is all: then none is made. A
/// seed of a round that wasn't explored there begins no other one: where memory is short, each is
/// explored twice at most.
pub fn keep_ahead<R: Threads + Sync>(
    rt: &R,
    alloc: Global,
    plan: &Plan,
    asked: &ExploreArguments<'_>,
    jobs: u32,
    ahead: &mut Ahead,
    done: u32,
)
    requires jobs { IfSome asked.now.jobs (λ most. jobs ≡ most) }
    requires left { done < asked.now.seeds }
    requires ahead { AreAhead plan.now asked.now ahead.old }
    ensures ahead { AreAhead plan.now asked.now ahead.new }
    ensures kept { done < ahead.old.last → ahead.new ≡ ahead.old }
    ensures alone { jobs ≤ 1 → ahead.new ≡ ahead.old }
    ensures begun { 1 < jobs → ahead.old.last ≤ done
        → ahead.new.last ≡ round_end asked.now jobs done }
    ensures few { 1 < jobs → ahead.old.last ≤ done → length ahead.new.blocks.items ≤ jobs }
{
    if jobs > 1 && ahead.last <= done {
        *ahead = explore_ahead(rt, alloc, plan, asked, jobs, done);
    }
}

// Explores a round of seeds behind so many, a block in each thread: one seed at least. The round
// ends where it was planned, whatever comes of it. Where no thread can be made the blocks are
// explored one after another; where memory is out for what they say, nothing is explored ahead.
fn explore_ahead<R: Threads + Sync>(
    rt: &R,
    alloc: Global,
    plan: &Plan,
    asked: &ExploreArguments<'_>,
    jobs: u32,
    done: u32,
) -> Ahead
    requires jobs { 0 < jobs }
    requires left { done < asked.now.seeds }
    ensures ahead { AreAhead plan.now asked.now result }
    ensures planned { result.last ≡ round_end asked.now jobs done }
    ensures further { done < result.last }
    ensures few { length result.blocks.items ≤ jobs }
{
    let left = asked.seeds - done;
    let blocks = jobs.min(left);
    let size = block_size(left, blocks, asked.draws.count);
    let last = done + blocks * size;
    let explore = |block: usize| explore_block_of(alloc, plan, asked, done, size, block as u32);
    match thread::map_indices(rt, alloc, blocks as usize, &explore) {
        Ok(blocks) => Ahead {
            from: done,
            size,
            last,
            blocks,
        },
        Err(_) => Ahead::nothing(alloc, last),
    }
}

/// Explores on, to more than so many seeds: joins what was explored ahead of those that are, or
/// else explores the next one.
pub fn go_on(
    alloc: Global,
    plan: &Plan,
    asked: &ExploreArguments<'_>,
    ahead: &Ahead,
    all: &mut Checked,
    done: u32,
) -> Result<(), ExploreFault>
    requires left { done < asked.now.seeds }
    requires reached { done ≤ all.old.tally.traces }
    requires ahead { AreAhead plan.now asked.now ahead.now }
    requires explored { AreExploredBehind plan.now asked.now 0 all.old }
    ensures explored { AreExploredBehind plan.now asked.now 0 all.new }
    ensures further { OnOk result (done < all.new.tally.traces) }
    ensures kept { all.old.tally.traces ≤ asked.now.seeds → all.new.tally.traces ≤ asked.now.seeds }
    ensures err { OnErr result (all.new ≡ all.old) }
    ensures fault { IfErr result (λ fault. fault ≡ Memory) }
{
    // Read, so that it is known to be a number of 32 bits.
    let _seeds = asked.seeds;
    if all.seeds() > done {
        return Ok(());
    }
    match ahead.block_behind(done) {
        Some(block) => all.join(block),
        None => all.join(&explore_one(alloc, plan, asked, done + 1)?),
    }
    Ok(())
}

// How many seeds of so many events a block has, of those that are left for so many blocks.
fn block_size(left: u32, blocks: u32, events: u32) -> u32
    requires some { 0 < blocks }
    requires enough { blocks ≤ left }
    ensures is { result ≡ block_size left blocks events }
    ensures some { 0 < result }
    ensures enough { blocks * result ≤ left }
{
    let most = LARGEST_BLOCK / events.max(1);
    (left / blocks / ROUNDS).min(most).max(1)
}

// Explores the block of this number, of those that stand behind so many seeds.
fn explore_block_of(
    alloc: Global,
    plan: &Plan,
    asked: &ExploreArguments<'_>,
    from: u32,
    size: u32,
    block: u32,
) -> Checked
    requires { from + block * size + size < 2 ^ 32 }
    ensures few { result.tally.traces ≤ size }
    ensures explored { AreExploredBehind plan.now asked.now (from + block * size) result }
{
    explore_block(alloc, plan, asked, from + block * size, size)
}

// Explores a block of seeds behind so many, one after another: all, or those before the first that
// isn't explored.
fn explore_block(
    alloc: Global,
    plan: &Plan,
    asked: &ExploreArguments<'_>,
    from: u32,
    size: u32,
) -> Checked
    requires { from + size < 2 ^ 32 }
    ensures few { result.tally.traces ≤ size }
    ensures explored { AreExploredBehind plan.now asked.now from result }
{
    let mut block = Checked::none(plan.model());
    for done in 0..size {
        let Ok(checked) = explore_one(alloc, plan, asked, from + done + 1) else {
            return block;
        };
        block.join(&checked);
    }
    block
}

// Explores one seed from base 0, with a resolver's new bank.
fn explore_one(
    alloc: Global,
    plan: &Plan,
    asked: &ExploreArguments<'_>,
    seed: u32,
) -> Result<Checked, ExploreFault>
    ensures explored { IfOk result (AreSeedFigures (IsSharedAtFirst asked.now.resolver plan.now)
        plan.now 0 asked.now.draws seed 1) }
    ensures fault { IfErr result (λ fault. fault ≡ Memory) }
{
    match asked.resolver {
        Resolver::Central => {
            let make = || Central::new(alloc, plan, 0);
            explore_seed(alloc, plan, &make, 0, seed, asked.draws)
        }
        Resolver::Ring => {
            let make = || Ring::new(alloc, plan, 0);
            explore_seed(alloc, plan, &make, 0, seed, asked.draws)
        }
        Resolver::Forks => {
            let make = || Forks::new(alloc, plan, 0);
            explore_seed(alloc, plan, &make, 0, seed, asked.draws)
        }
    }
}
