//! Answers to running nodes as threads.
ghost use Rattle.std.specs.Prelude.{◌≡◌, IfErr, IfOk, Ok, length};
ghost use Rattle.bip_host.specs.Seats.{CanHave};
ghost use Rattle.bip_replay.specs.Replays.{IsRunOf};
ghost use Rattle.bip_replay.specs.Runs.{IsModelRun};
ghost use Rattle.bip_replay.specs.Writing.{text_of};
ghost use Rattle.bipr.specs.Endings.{AllOutcomes};
ghost use Rattle.bipr.specs.Hosted.{IsHostAnswer, IsHostStop, limits_of, stats_told};
ghost use Rattle.bipr.specs.Resolvers.{kind_named};
ghost use Rattle.bipr.specs.Scheduled.{reporting};
ghost use Rattle.bipr.specs.Stops.{answer_of_stop};

use crate::commands::run::RunArguments;
use crate::hosting::Hosting;
use crate::invocations::Invocation;
use crate::scheduled::reported;
use crate::stops::Stop;
use crate::wording::stats_text;
use bip_answers::Answer;
use bip_explain::Explanation;
use bip_host::{HostFault, HostFigures, HostReport, Limits, NodeAct};
use bip_partition::Plan;
use bip_record::RecordFault;
use bip_replay::{BookFault, run_laws, write_trace};
use std::alloc::{AllocError, Global};
use std::sync::Wait;
use std::thread::Threads;
use std::time::Clock;

/// What a host gave: its report, its threads and their turns, with which limits they ran, and how
/// long they took; and what its nodes did, or why that isn't noted, where it was asked for.
#[derive(Drop)]
pub struct Hosted {
    pub report: HostReport,
    pub figures: HostFigures,
    pub limits: Limits,
    pub milliseconds: u64,
    pub notes: Option<Result<Vec<NodeAct>, RecordFault>>,
}

/// In how many turns a thread ends, whatever grants are asked for.
const MOST_TURNS: u32 = 1_000_000_000;

/// How long a host runs, where just one is said of turns and of grants.
pub fn limits_of(turns: Option<u32>, grants: Option<u32>) -> Option<Limits>
    ensures { result ≡ limits_of turns grants }
{
    match (turns, grants) {
        (Some(turns), None) => Some(Limits {
            turns,
            grants: None,
        }),
        (None, Some(grants)) => Some(Limits {
            turns: MOST_TURNS,
            grants: Some(u64::from(grants)),
        }),
        _ => None,
    }
}

impl<R: Threads + Wait + Clock + Sync, I, H: Hosting, O, E> Invocation<'_, R, I, H, O, E> {
    /// The answer to running the nodes of a plan as threads: the trace of the host's grants, which
    /// are a run of the model, with what is counted where that is asked for; else that a grant was
    /// refused, or that no thread could be made, which takes no memory (docs/ANSWERS.md,
    /// "Answers"). Want of memory stops it only where the host wants it, or the text of its grants.
    pub fn answer_host<'a>(
        &mut self,
        plan: &Plan,
        asked: &RunArguments<'a>,
        limits: Limits,
    ) -> Result<Answer, Stop<'a>>
        requires { CanHave plan.now (kind_named asked.now.form.resolver) asked.now.form.tables }
        ensures says { AllOutcomes result (IsHostAnswer
            ((H.hosts self.old.hosting.now).gives plan.now asked.now.form limits) plan.now
            asked.now.with_stats) }
        ensures errors { self.new.errors ≡ self.old.errors }
        ensures output { self.new.output ≡ self.old.output }
    {
        let hosted = self.host(plan, asked, limits, false)?;
        Ok(answer_hosted(self.alloc, plan, &hosted, asked.with_stats)?)
    }

    /// What running the nodes of a plan as threads gives; else what stops the command, with its
    /// answer.
    pub fn host<'a>(
        &mut self,
        plan: &Plan,
        asked: &RunArguments<'a>,
        limits: Limits,
        is_recorded: bool,
    ) -> Result<Hosted, Stop<'a>>
        requires { CanHave plan.now (kind_named asked.now.form.resolver) asked.now.form.tables }
        ensures gives { IfOk result (λ hosted.
            (H.hosts self.old.hosting.now).gives plan.now asked.now.form limits (Ok hosted)) }
        ensures run { IfOk result (λ hosted.
            IsModelRun plan.now.model 0 hosted.report.grants.items) }
        ensures stopped { IfErr result (λ why. IsHostAnswer
            ((H.hosts self.old.hosting.now).gives plan.now asked.now.form limits) plan.now
            asked.now.with_stats (answer_of_stop why) × IsHostStop why) }
        ensures errors { self.new.errors ≡ self.old.errors }
        ensures output { self.new.output ≡ self.old.output }
        ensures hosting { self.new.hosting ≡ self.old.hosting }
    {
        let (rt, alloc, form) = (self.rt, self.alloc, asked.form);
        let hosting = self.hosting;
        match hosting.host(rt, alloc, plan, form, limits, is_recorded) {
            Ok(hosted) => Ok(hosted),
            Err(HostFault::NotARun(fault)) => {
                explain_refused(&mut self.explanation, &fault);
                Err(Stop::GrantRefused)
            }
            Err(HostFault::Thread) => {
                self.explanation.say(b"the system makes no more threads");
                Err(Stop::ThreadRefused)
            }
            Err(HostFault::Memory) => Err(Stop::OutOfMemory),
        }
    }
}

/// The trace of a host's grants on standard output, and what is told of it on standard error.
pub fn answer_hosted(
    alloc: Global,
    plan: &Plan,
    hosted: &Hosted,
    with_stats: bool,
) -> Result<Answer, AllocError>
    requires { IsModelRun plan.now.model 0 hosted.now.report.grants.items }
    ensures is { IfOk result (λ answer. answer
        ≡ reporting (text_of plan.now.model hosted.now.report.grants.items)
        (stats_told with_stats hosted.now)) }
    ensures run { IfOk result (λ answer. IsRunOf plan.now.model 0 answer.output
        (length hosted.now.report.grants.items)) }
{
    run_laws();
    plan.recall();
    let trace = write_trace(alloc, plan.model(), hosted.report.grants.as_slice())?;
    let told = if with_stats {
        stats_text(alloc, hosted)?
    } else {
        Vec::new(alloc)
    };
    Ok(reported(trace, told))
}

// Explains why the book refused a grant.
fn explain_refused(explanation: &mut Explanation, fault: &BookFault) {
    explanation.say(b"the book took a grant for no step, and nobody was told of it: ");
    explanation.say(match fault {
        BookFault::NotEnabled => b"it isn't enabled",
        BookFault::Below(_) => b"what stands above it is enabled",
        BookFault::Number(_, _) => b"a number isn't its component's next",
        BookFault::Parties => b"its parties are wrong",
        BookFault::Memory => b"memory is out",
    });
}
