//! Answers to seeds: the schedules of their events.
ghost use Rattle.std.specs.Prelude.{IfOk};
ghost use Rattle.bip_bank.specs.Banks.{content_of};
ghost use Rattle.bip_core.specs.Starting.{IsUnasked};
ghost use Rattle.bipr.specs.Endings.{AllOutcomes};
ghost use Rattle.bipr.specs.Resolvers.{IsSharedAtFirst};
ghost use Rattle.bipr.specs.Seeds.{IsSeedAnswer, IsSeedSchedule};

use crate::commands::seed::SeedArguments;
use crate::inputs::MOST_BYTES;
use crate::resolvers::Resolver;
use crate::stops::Stop;
use bip_answers::{Answer, Status, said};
use bip_bank::{Bank, Central};
use bip_core::World;
use bip_forks::Forks;
use bip_partition::Plan;
use bip_ring::Ring;
use bip_schedule::{seeded, write_schedule};
use std::alloc::{AllocError, Global};

/// The answer to a seed of a plan, with a resolver's bank: the schedule of the events that are
/// drawn from it in the new world, from base 0. What stops it is that such a text is longer than
/// any that is read; or want of memory, also where an event was skipped or a message lost for want
/// of it (docs/ANSWERS.md, "Answers").
pub fn answer_seed<'a>(
    alloc: Global,
    plan: &Plan,
    asked: &SeedArguments<'a>,
) -> Result<Answer, Stop<'a>>
    ensures { AllOutcomes result (IsSeedAnswer plan.now asked.now) }
{
    match asked.resolver {
        Resolver::Central => {
            let bank = Central::new(alloc, plan, 0)?;
            write_seed(alloc, plan, bank, asked)
        }
        Resolver::Ring => {
            let bank = Ring::new(alloc, plan, 0)?;
            write_seed(alloc, plan, bank, asked)
        }
        Resolver::Forks => {
            let bank = Forks::new(alloc, plan, 0)?;
            write_seed(alloc, plan, bank, asked)
        }
    }
}

// The same with a new bank of the resolver.
fn write_seed<'a, B: Bank + Drop>(
    alloc: Global,
    plan: &Plan,
    bank: B,
    asked: &SeedArguments<'a>,
) -> Result<Answer, Stop<'a>>
    requires unasked { IsUnasked plan.now 0 (content_of (B.kept bank)) }
    requires shared { IsSharedAtFirst asked.now.resolver plan.now (B.kept bank).sharing }
    ensures { AllOutcomes result (IsSeedAnswer plan.now asked.now) }
{
    let schedule = schedule_of(alloc, plan, bank, asked)?;
    if schedule.len() > MOST_BYTES {
        return Err(Stop::ScheduleTooLong);
    }
    Ok(said(alloc, Status::Done, schedule))
}

// The schedule of a seed, with a new bank of the resolver. The only error is want of memory, also
// where an event was skipped or a message lost for want of it.
fn schedule_of<B: Bank + Drop>(
    alloc: Global,
    plan: &Plan,
    bank: B,
    asked: &SeedArguments<'_>,
) -> Result<Vec<u8>, AllocError>
    requires unasked { IsUnasked plan.now 0 (content_of (B.kept bank)) }
    requires shared { IsSharedAtFirst asked.now.resolver plan.now (B.kept bank).sharing }
    ensures { IfOk result (λ schedule. IsSeedSchedule plan.now asked.now schedule.items) }
{
    let mut world = World::new(alloc, plan, bank, 0)?;
    let (events, report) = seeded(alloc, &mut world, u64::from(asked.seed), asked.draws)?;
    if report.skipped != 0 || report.lost != 0 {
        return Err(AllocError);
    }
    let schedule = write_schedule(alloc, plan, &events)?;
    Ok(schedule)
}
