//! Answers to running nodes as threads, where the run is recorded.
ghost use Rattle.std.specs.Prelude.{◌≡◌, IfErr, IfNone, IfOk, IfSome, Some};
ghost use Rattle.bip_bank.specs.Banks.{content_of};
ghost use Rattle.bip_core.specs.Starting.{IsUnasked};
ghost use Rattle.bip_host.specs.Seats.{CanHave};
ghost use Rattle.bipr.specs.Endings.{AllOutcomes};
ghost use Rattle.bipr.specs.Hosted.{IsPlanHosted};
ghost use Rattle.bipr.specs.Recorded.{IsRecord, IsRecordKept, IsRecorded, IsWhyUnkept};
ghost use Rattle.bipr.specs.Recorded.{LeadElsewhere, answer_unkept, instead, keeping};
ghost use Rattle.bipr.specs.Resolvers.{IsSharedAtFirst, kind_named};

use crate::commands::run::RunArguments;
use crate::hosted::{Hosted, answer_hosted};
use crate::hosting::Hosting;
use crate::inputs::MOST_BYTES;
use crate::invocations::Invocation;
use crate::resolvers::Resolver;
use crate::stops::{LOST, OTHER_RUN, SCHEDULE_TOO_LONG, Stop};
use bip_answers::{Answer, FileText, Status};
use bip_bank::{Bank, Central};
use bip_forks::Forks;
use bip_host::{Limits, NodeAct};
use bip_model::{Grant, Seq};
use bip_partition::Plan;
use bip_record::{RecordFault, order_acts, record_of};
use bip_ring::Ring;
use std::alloc::{AllocError, Global};
use std::sync::Wait;
use std::thread::Threads;
use std::time::Clock;

impl<R: Threads + Wait + Clock + Sync, I, H: Hosting, O, E> Invocation<'_, R, I, H, O, E> {
    /// The answer to running the nodes of a plan as threads, whose run is recorded in the file that
    /// a path names: that of the run, with a record of its trace to keep there. The file is made
    /// before threads are started (docs/ANSWERS.md, "Answers").
    pub fn answer_recorded<'a>(
        &mut self,
        plan: &Plan,
        asked: &RunArguments<'a>,
        limits: Limits,
        path: &'a str,
    ) -> Result<Answer, Stop<'a>>
        requires form { CanHave plan.now (kind_named asked.now.form.resolver)
            asked.now.form.tables }
        requires path { asked.now.record_in ≡ Some path }
        ensures says { AllOutcomes result (IsPlanHosted plan.now (H.hosts self.old.hosting.now)
            asked.now limits) }
        ensures errors { self.new.errors ≡ self.old.errors }
        ensures output { self.new.output ≡ self.old.output }
    {
        let Some(record) = self.hosting.make(path) else {
            self.explanation
                .say(b"the file for the record can't be made");
            return Err(Stop::CannotWrite);
        };
        self.record = Some(record);
        let hosted = match self.host(plan, asked, limits, true) {
            Ok(hosted) => hosted,
            Err(why) => return Err(why),
        };
        let (alloc, resolver) = (self.alloc, asked.form.resolver);
        let plain = answer_hosted(alloc, plan, &hosted, asked.with_stats)?;
        let answer = answer_with_record(alloc, plan, resolver, &hosted, plain, path)?;
        Ok(answer)
    }
}

// The answer of a run, which has this one where it isn't recorded, with the record of its trace to
// keep in the file that a path names; else with what is wrong. The only error is want of memory.
fn answer_with_record(
    alloc: Global,
    plan: &Plan,
    resolver: Resolver,
    hosted: &Hosted,
    plain: Answer,
    path: &str,
) -> Result<Answer, AllocError>
    ensures { IfOk result (IsRecorded plan.now resolver path.now hosted.now plain) }
{
    match make_record(alloc, plan, resolver, hosted, plain.output.as_slice())? {
        Ok(schedule) => answer_keeping(alloc, plain, path, schedule),
        Err(why) => answer_unkept(alloc, plain, why),
    }
}

/// Why a run isn't recorded.
#[derive(Clone, Copy, Debug, PartialEq, Eq)]
enum Unkept {
    /// Its schedule is longer than any text that is read.
    TooLong,
    /// Messages were lost for want of memory.
    Lost,
    /// What threads did leads elsewhere.
    Elsewhere,
}

/// An answer with a text to keep in the file that a path names. The only error is want of memory.
pub fn answer_keeping(
    alloc: Global,
    plain: Answer,
    path: &str,
    text: Vec<u8>,
) -> Result<Answer, AllocError>
    ensures { IfOk result (λ answer. answer ≡ keeping plain path.now text.items) }
{
    let path = Vec::from_slice(alloc, path.as_bytes())?;
    let file = FileText {
        path: Seq::of(path),
        text: Seq::of(text),
    };
    Ok(Answer {
        status: plain.status,
        output: plain.output,
        complaint: plain.complaint,
        file: Some(file),
    })
}

// The answer of a run that isn't recorded.
fn answer_unkept(alloc: Global, plain: Answer, why: Unkept) -> Result<Answer, AllocError>
    ensures { IfOk result (λ answer. answer ≡ answer_unkept plain why) }
{
    match why {
        Unkept::TooLong => answer_instead(alloc, plain, Status::Refused, SCHEDULE_TOO_LONG),
        Unkept::Lost => answer_instead(alloc, plain, Status::Refused, LOST),
        Unkept::Elsewhere => answer_instead(alloc, plain, Status::NotARun, OTHER_RUN),
    }
}

// An answer with another status and complaint.
fn answer_instead(
    alloc: Global,
    plain: Answer,
    status: Status,
    complaint: &[u8],
) -> Result<Answer, AllocError>
    ensures { IfOk result (λ answer. answer ≡ instead plain status complaint.now) }
{
    let complaint = Vec::from_slice(alloc, complaint)?;
    Ok(Answer {
        status,
        output: plain.output,
        complaint: Seq::of(complaint),
        file: plain.file,
    })
}

// The schedule that does again what the nodes of a plan did in threads, where it leads to their
// trace; else why there is none. The only error is want of memory.
fn make_record(
    alloc: Global,
    plan: &Plan,
    resolver: Resolver,
    hosted: &Hosted,
    trace: &[u8],
) -> Result<Result<Vec<u8>, Unkept>, AllocError>
    ensures made { IfOk result (λ made. IfOk made (λ schedule.
        IsRecordKept plan.now resolver hosted.now trace.now schedule.items)) }
    ensures none { IfOk result (λ made. IfErr made
        (IsWhyUnkept plan.now resolver hosted.now trace.now)) }
{
    if hosted.report.lost != 0 {
        return Ok(Err(Unkept::Lost));
    }
    let acts = match &hosted.notes {
        Some(Ok(acts)) => acts.as_slice(),
        Some(Err(RecordFault::Memory)) => return Err(AllocError),
        Some(Err(RecordFault::TooLong)) => return Ok(Err(Unkept::TooLong)),
        None => &[],
    };
    let run = Run {
        acts,
        grants: hosted.report.grants.as_slice(),
        trace,
    };
    match record_with(alloc, plan, resolver, &run)? {
        None => Ok(Err(Unkept::Elsewhere)),
        Some(schedule) if schedule.len() > MOST_BYTES => Ok(Err(Unkept::TooLong)),
        Some(schedule) => Ok(Ok(schedule)),
    }
}

// A run of threads: what its nodes did, the grants that came of it, and their trace.
#[derive(Clone, Copy)]
struct Run<'r> {
    acts: &'r [NodeAct],
    grants: &'r [Grant],
    trace: &'r [u8],
}

// The record of a run with a resolver's bank, where it leads to the run's trace.
fn record_with(
    alloc: Global,
    plan: &Plan,
    resolver: Resolver,
    run: &Run<'_>,
) -> Result<Option<Vec<u8>>, AllocError>
    ensures made { IfOk result (λ made. IfSome made (λ schedule.
        IsRecord plan.now resolver run.now.trace.now schedule.items)) }
    ensures none { IfOk result (λ made. IfNone made
        (LeadElsewhere plan.now resolver run.now.trace.now)) }
{
    match resolver {
        Resolver::Central => {
            let (first, again) = (Central::new(alloc, plan, 0)?, Central::new(alloc, plan, 0)?);
            record_by(alloc, plan, resolver, first, again, run)
        }
        Resolver::Ring => {
            let (first, again) = (Ring::new(alloc, plan, 0)?, Ring::new(alloc, plan, 0)?);
            record_by(alloc, plan, resolver, first, again, run)
        }
        Resolver::Forks => {
            let (first, again) = (Forks::new(alloc, plan, 0)?, Forks::new(alloc, plan, 0)?);
            record_by(alloc, plan, resolver, first, again, run)
        }
    }
}

// The same with two new banks of it: one in which an order is found, and one in which it is done.
fn record_by<B: Bank + Drop>(
    alloc: Global,
    plan: &Plan,
    resolver: Resolver,
    first: B,
    again: B,
    run: &Run<'_>,
) -> Result<Option<Vec<u8>>, AllocError>
    requires unasked { IsUnasked plan.now 0 (content_of (B.kept first)) }
    requires anew { IsUnasked plan.now 0 (content_of (B.kept again)) }
    requires shared { IsSharedAtFirst resolver plan.now (B.kept again).sharing }
    ensures made { IfOk result (λ made. IfSome made (λ schedule.
        IsRecord plan.now resolver run.now.trace.now schedule.items)) }
    ensures none { IfOk result (λ made. IfNone made
        (LeadElsewhere plan.now resolver run.now.trace.now)) }
{
    let events = match order_acts(alloc, plan, first, resolver.kind(), run.acts, run.grants) {
        Ok(events) => events,
        Err(refused) => {
            drop(again);
            return Err(refused);
        }
    };
    match record_of(alloc, plan, again, events.as_slice(), run.trace)? {
        Some(schedule) => Ok(Some(schedule)),
        None => Ok(None),
    }
}
