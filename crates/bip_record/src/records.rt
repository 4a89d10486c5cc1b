//! Records: schedules that lead to the trace of a run of threads.
ghost use Rattle.std.specs.Prelude.{IfNone, IfOk, IfSome};
ghost use Rattle.bip_bank.specs.Banks.{content_of};
ghost use Rattle.bip_core.specs.Starting.{IsUnasked};
ghost use Rattle.bip_record.specs.Records.{AreNoRecordOf, IsRecordOf};
ghost use Rattle.bip_schedule.specs.Writing.{IsWritten};

use bip_bank::Bank;
use bip_core::{Event, World, run_steps};
use bip_partition::Plan;
use bip_replay::write_trace;
use bip_schedule::{have_spelling, write_schedule};
use std::alloc::{AllocError, Global};

/// The schedule of events, where these lead from the new world of a plan, with this new bank, to
/// the trace that a text is; else none. The only error is want of memory, also where an event was
/// skipped or a message lost for want of it. **No other call makes a record, so what is one does
/// again what it was recorded of** (docs/HOST.md, "Records").
pub fn record_of<B: Bank + Drop>(
    alloc: Global,
    plan: &Plan,
    bank: B,
    events: &[Event],
    trace: &[u8],
) -> Result<Option<Vec<u8>>, AllocError>
    requires { IsUnasked plan.now 0 (content_of (B.kept bank)) }
    ensures record { IfOk result (λ made. IfSome made (λ schedule.
        IsRecordOf plan.now (B.kept bank).sharing trace.now schedule.items)) }
    ensures written { IfOk result (λ made. IfSome made (λ schedule.
        IsWritten plan.now events.now schedule.items)) }
    ensures none { IfOk result (λ made. IfNone made
        (AreNoRecordOf plan.now (B.kept bank).sharing events.now trace.now)) }
{
    if !have_spelling(plan, events) {
        drop(bank);
        return Ok(None);
    }
    let mut world = World::new(alloc, plan, bank, 0)?;
    let report = run_steps(&mut world, events);
    if report.skipped != 0 || report.lost != 0 {
        drop(world);
        return Err(AllocError);
    }
    plan.recall();
    let led = write_trace(alloc, plan.model(), world.trace())?;
    drop(world);
    if led.as_slice() != trace {
        return Ok(None);
    }
    Ok(Some(write_schedule(alloc, plan, events)?))
}
