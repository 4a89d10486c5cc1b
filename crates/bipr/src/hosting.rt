//! What runs the nodes of a plan as threads.
ghost use denote.Param.Send.{IsSync};
ghost use Rattle.std.specs.Prelude.{IfOk, is_some};
ghost use Rattle.bip_replay.specs.Runs.{IsModelRun};
ghost use Rattle.bip_host.specs.Reports.{AreFiguresOf, IsEndedBy};
ghost use Rattle.bip_host.specs.Seats.{CanHave};
ghost use Rattle.bipr.specs.Hosted.{Hosts};
ghost use Rattle.bipr.specs.Resolvers.{kind_named};

use crate::hosted::Hosted;
use crate::resolvers::HostForm;
use crate::streams::put;
use bip_host::{Gate, HostFault, HostFigures, HostReport, Limits, Open, run_host_counted};
use bip_partition::Plan;
use bip_record::Recorder;
use std::alloc::Global;
use std::fs::{File, Files};
use std::sync::Wait;
use std::thread::Threads;
use std::time::{Clock, Instant};

/// What runs the nodes of a plan, each in a thread of its own, which may wait for one another, and
/// what it is written down in. A command is proved for every such thing: of what it gives it knows
/// what `host` and `keep` say.
pub trait Hosting {
    /// What running nodes may give, and what may come of a text that is kept.
    ghost hosts: { Self → Hosts };

    /// A file that was made anew. It is closed where it is dropped.
    type Record: Drop;

    /// Makes the file anew that a path names, if it can be made.
    fn make(&self, path: &str) -> Option<Self::Record>
        ensures { (hosts self.now).makes path.now (is_some result) };

    /// Writes a text into the file that was made for a path, and says whether all of it is out: it
    /// is not where none was made.
    fn keep(&self, path: &[u8], record: Option<Self::Record>, text: &[u8]) -> bool
        ensures { (hosts self.now).keeps path.now text.now result };

    /// Runs the nodes of a plan in a form that it can have, with limits, in threads that share the
    /// runtime. The grants are a run of the plan's model. What nodes did is noted where it is to be
    /// recorded.
    fn host<R: Threads + Wait + Clock + Sync>(
        &self,
        rt: &R,
        alloc: Global,
        plan: &Plan,
        form: HostForm,
        limits: Limits,
        is_recorded: bool,
    ) -> Result<Hosted, HostFault>
        requires shared { IsSync R.row }
        requires form { CanHave plan.now (kind_named form.resolver) form.tables }
        ensures gives { (hosts self.now).gives plan.now form limits result }
        ensures run { IfOk result (λ hosted.
            IsModelRun plan.now.model 0 hosted.report.grants.items) };
}

/// Runs nodes as threads of the process. The third layer is the one that the resolver names, and
/// its tables are shared as is asked; there are as many threads as that and the plan ask for, and
/// none makes more turns than the limit. Records are files.
#[derive(Drop)]
pub struct Threaded<'a, F> {
    files: &'a F,
}

impl<'a, F> Threaded<'a, F> {
    pub fn new(files: &'a F) -> Threaded<'a, F> {
        Threaded { files }
    }
}

impl<F: Files> Hosting for Threaded<'_, F> {
    ghost use Rattle.bipr.specs.Hosted.{threaded};

    ghost hosts = { λ _. threaded };

    type Record = F::File;

    fn make(&self, path: &str) -> Option<F::File> {
        File::create(self.files, path).ok()
    }

    fn keep(&self, _path: &[u8], record: Option<F::File>, text: &[u8]) -> bool
        ensures { threaded.keeps _path.now text.now result }
    {
        match record {
            Some(mut record) => put(&mut record, text),
            None => false,
        }
    }

    fn host<R: Threads + Wait + Clock + Sync>(
        &self,
        rt: &R,
        alloc: Global,
        plan: &Plan,
        form: HostForm,
        limits: Limits,
        is_recorded: bool,
    ) -> Result<Hosted, HostFault> {
        let start = Instant::now(rt);
        let (report, figures, notes) = if is_recorded {
            let recorder = Recorder::new(alloc, form.tables);
            let (report, figures) = host_with(rt, alloc, plan, form, limits, &recorder)?;
            (report, figures, Some(recorder.into_acts()))
        } else {
            let (report, figures) = host_with(rt, alloc, plan, form, limits, &Open)?;
            (report, figures, None)
        };
        let milliseconds = match start {
            Ok(start) => milliseconds_since(rt, &start),
            Err(_) => 0,
        };
        Ok(Hosted {
            report,
            figures,
            limits,
            milliseconds,
            notes,
        })
    }
}

/// Runs the nodes of a plan in a form, with limits and a gate.
fn host_with<G: Gate + Sync, R: Threads + Wait + Sync>(
    rt: &R,
    alloc: Global,
    plan: &Plan,
    form: HostForm,
    limits: Limits,
    gate: &G,
) -> Result<(HostReport, HostFigures), HostFault>
    requires { CanHave plan.now (kind_named form.resolver) form.tables }
    ensures run { IfOk result (λ done. IsModelRun plan.now.model 0 done.0.grants.items) }
    ensures figures { IfOk result (λ done. AreFiguresOf plan.now (kind_named form.resolver)
        form.tables limits.turns done.1) }
    ensures ended { IfOk result (λ done. IsEndedBy limits done.0.grants.items done.1) }
{
    run_host_counted(rt, alloc, plan, form.kind(), form.tables, limits, gate)
}

/// How long ago a moment was, in milliseconds; 0 where the clock can't be read.
pub fn milliseconds_since<R: Clock>(rt: &R, start: &Instant) -> u64 {
    match start.elapsed(rt) {
        Ok(elapsed) => u64::try_from(elapsed.as_millis()).unwrap_or(u64::MAX),
        Err(_) => 0,
    }
}
