//! The explorer: many runs by chance, each checked to be a run of the model.
ghost use Rattle.std.specs.Prelude.{◌≡◌, ◌↔◌, ◌<◌, ◌≤◌, IfErr, IfOk, IsTrue, Ok, Some};
ghost use Rattle.bip_model.specs.Numbering.{last_number};
ghost use Rattle.bip_bank.specs.Banks.{content_of};
ghost use Rattle.bip_core.specs.Runs.{IsLossless};
ghost use Rattle.bip_core.specs.Starting.{IsNewWorld, IsUnasked};
ghost use Rattle.bip_core.specs.Worlds.{world_of};
ghost use Rattle.bip_schedule.specs.Exploring.{AreSeedFigures, IsSharedBy};
ghost use Rattle.bip_schedule.specs.Exploring.{number_of_explore, text_of_explore};
ghost use Rattle.bip_schedule.specs.declared.exploring.ExploreFault.TheVariants.{Memory};

use crate::Draws;
use crate::checking::Checked;
use crate::seeding::run_seed;
use bip_bank::Bank;
use bip_core::{Report, World};
use bip_model::Number;
use bip_partition::Plan;
use bip_replay::StepFault;
use std::alloc::{AllocError, Global};
use std::fmt;
use thiserror::Error;

/// Why seeds aren't explored.
#[derive(Debug, Drop, Error)]
pub enum ExploreFault {
    /// The trace of this seed is no run of the model: its first grant that can't be next has this
    /// fault. No call answers so: it is what the check would say if the proof were wrong.
    NotARun(u32, StepFault),
    /// Want of memory.
    Memory,
}

impl fmt::Display for ExploreFault {
    ghost output = { λ fault. Some (text_of_explore fault) };

    fn fmt<W: fmt::Write>(&self, f: &mut fmt::Formatter<W>) -> fmt::Result {
        match self {
            ExploreFault::NotARun(seed, fault) => write!(f, "seed {seed}: {fault}"),
            ExploreFault::Memory => write!(f, "no memory"),
        }
    }
}

impl ExploreFault {
    /// The fault's number.
    pub fn number(&self) -> u8
        ensures { result ≡ number_of_explore self.now }
    {
        match self {
            ExploreFault::NotARun(_, _) => 1,
            ExploreFault::Memory => 2,
        }
    }
}

impl From<AllocError> for ExploreFault {
    ghost from_gives = { λ _ fault. fault ≡ Memory };

    fn from(_: AllocError) -> ExploreFault {
        ExploreFault::Memory
    }
}

/// Explores the seeds from 1 on, so many of them: each draws its events in the new world of the
/// plan above the base, and its trace is checked to be a run of the model. Ends at the first seed
/// whose trace is none, or where memory is out: also where an event was skipped or a message lost
/// for want of it, so that a seed's trace is always the same. No seeds want no memory. `make`
/// gives a bank of that plan and base without grants or open requests. One seed's world is kept
/// at a time (docs/ANSWERS.md, "Exploring").
pub fn explore<'p, B: Bank + Drop, F: Fn() -> Result<B, AllocError>>(
    alloc: Global,
    plan: &'p Plan,
    make: F,
    base: Number,
    seeds: u32,
    draws: Draws,
) -> Result<Checked, ExploreFault>
    requires base { base < last_number }
    requires callable { F.IsAlwaysCallable make }
    requires unasked { (bank : B) → F.post make (Ok bank)
        → IsUnasked plan.now base (content_of (B.kept bank)) }
    ensures explored { IfOk result (AreSeedFigures (IsSharedBy B.kept (F.post make)) plan.now base
        draws 1 seeds) }
    ensures fault { IfErr result (λ fault. (fault ≡ Memory) × (0 < seeds)) }
{
    let mut all = Checked::none(plan.model());
    for done in 0..seeds {
        let checked = explore_seed(alloc, plan, &make, base, done + 1, draws)?;
        all.join(&checked);
    }
    Ok(all)
}

/// Explores one seed, as `explore` does: its trace was checked (docs/ANSWERS.md, "Exploring").
pub fn explore_seed<'p, B: Bank + Drop, F: Fn() -> Result<B, AllocError>>(
    alloc: Global,
    plan: &'p Plan,
    make: &F,
    base: Number,
    seed: u32,
    draws: Draws,
) -> Result<Checked, ExploreFault>
    requires base { base < last_number }
    requires callable { F.IsAlwaysCallable make.now }
    requires unasked { (bank : B) → F.post make.now (Ok bank)
        → IsUnasked plan.now base (content_of (B.kept bank)) }
    ensures explored { IfOk result (AreSeedFigures (IsSharedBy B.kept (F.post make.now)) plan.now
        base draws seed 1) }
    ensures few { IfOk result (λ figures. figures.tally.grants ≤ draws.count) }
    ensures fault { IfErr result (λ fault. fault ≡ Memory) }
{
    let mut world = new_world(alloc, plan, make, base)?;
    let report = run_seed(&mut world, u64::from(seed), draws);
    let checked = Checked::of(alloc, plan.model(), base, seed, world.trace(), report)?;
    if !is_whole(&report) {
        return Err(ExploreFault::Memory);
    }
    Ok(checked)
}

/// Whether no event was skipped, and no message lost, for want of memory.
fn is_whole(report: &Report) -> bool
    ensures { IsTrue result ↔ IsLossless report.now }
{
    report.skipped == 0 && report.lost == 0
}

/// The new world of a plan above a base, with a new bank.
fn new_world<'p, B: Bank + Drop, F: Fn() -> Result<B, AllocError>>(
    alloc: Global,
    plan: &'p Plan,
    make: &F,
    base: Number,
) -> Result<World<'p, B>, AllocError>
    requires base { base < last_number }
    requires callable { F.IsAlwaysCallable make.now }
    requires unasked { (bank : B) → F.post make.now (Ok bank)
        → IsUnasked plan.now base (content_of (B.kept bank)) }
    ensures new { IfOk result (λ world. IsNewWorld plan.now base (world_of world)) }
    ensures shared { IfOk result (λ world. IsSharedBy B.kept (F.post make.now)
        (world_of world).bank.sharing) }
{
    let bank = make()?;
    World::new(alloc, plan, bank, base)
}
