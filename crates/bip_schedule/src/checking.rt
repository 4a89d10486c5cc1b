//! The check that a seed's trace is a run of the model, and what checked seeds come to together.
ghost use Rattle.std.specs.Prelude.{◌≡◌, ◌+◌, ◌<◌, ◌^◌, ◌∷◌, Bool, IfErr, IfOk, [], length};
ghost use Rattle.bip_core.specs.Runs.{AddsUp};
ghost use Rattle.bip_model.specs.Numbering.{last_number};
ghost use Rattle.bip_schedule.specs.Exploring.{IsCheckFault, IsFoundRun, JoinsSeedFigures};
ghost use Rattle.bip_schedule.specs.Exploring.{seed_figures, joined_report};

use crate::exploring::ExploreFault;
use bip_core::Report;
use bip_model::{Grant, Model, Number};
use bip_replay::{GrantRef, Position};
use bip_walk::Tally;
use std::alloc::Global;
use std::marker;

/// Seeds whose traces were checked to be runs of the model, as their figures: the sums of their
/// reports, and the tally of their traces. Only the check makes one of a trace, so what asks for
/// one can't leave the check out.
#[derive(Drop)]
pub struct Checked {
    report: Report,
    tally: Tally,
}

impl marker::Model for Checked {
    ghost use Rattle.bip_schedule.specs.Exploring.{HaveFewEvents, SeedFigures};

    ghost Value = { SeedFigures };

    ghost view = { λ c. record { report = c.report; tally = c.tally } };

    ghost invariant = { λ c. HaveFewEvents (record { report = c.report; tally = c.tally }) };
}

impl Checked {
    /// No seed.
    pub fn none(model: &Model) -> Checked
        ensures { result ≡ seed_figures (length model.now.interactions) [] }
    {
        Checked {
            report: Report::empty(),
            tally: Tally::none(model),
        }
    }

    /// Checks that the grants of a seed's trace are a run of a model above a base. It has fewer
    /// than 2^32 grants, and its events this report.
    pub(crate) fn of(
        alloc: Global,
        model: &Model,
        base: Number,
        seed: u32,
        trace: &[Grant],
        report: Report,
    ) -> Result<Checked, ExploreFault>
        requires base { base < last_number }
        requires few { length trace.now < 2 ^ 32 }
        requires events { report.events < 2 ^ 32 }
        requires adds_up { AddsUp report }
        ensures checked { IfOk result (λ checked. (is_stuck : Bool)
            × IsFoundRun model.now base trace.now is_stuck
            × (checked ≡ seed_figures (length model.now.interactions) (record {
              traced = record { seed = seed; grants = trace.now; is_stuck = is_stuck };
              report = report;
            } ∷ []))) }
        ensures fault { IfErr result (IsCheckFault model.now base seed trace.now) }
    {
        let is_stuck = check(alloc, model, base, seed, trace)?;
        Ok(Checked {
            report,
            tally: Tally::of(model, seed, trace, is_stuck),
        })
    }

    /// Joins further seeds of the same model.
    pub fn join(&mut self, more: &Checked)
        requires same { length self.old.tally.counts ≡ length more.now.tally.counts }
        requires few { self.old.tally.traces + more.now.tally.traces < 2 ^ 32 }
        ensures { JoinsSeedFigures self.old more.now self.new }
    {
        self.report = joined_report(&self.report, &more.report);
        self.tally.join(&more.tally);
    }

    /// How many seeds there are.
    pub fn seeds(&self) -> u32
        ensures { result ≡ self.now.tally.traces }
    {
        self.tally.traces()
    }

    /// The sums of their reports.
    pub fn report(&self) -> &Report
        ensures { result.now ≡ self.now.report }
    {
        &self.report
    }

    /// The tally of their traces.
    pub fn tally(&self) -> &Tally
        ensures { result.now ≡ self.now.tally }
    {
        &self.tally
    }
}

// Checks that the grants of a seed's trace are a run of a model above a base, and answers whether
// nothing may run behind them.
fn check(
    alloc: Global,
    model: &Model,
    base: Number,
    seed: u32,
    trace: &[Grant],
) -> Result<bool, ExploreFault>
    requires { base < last_number }
    ensures run { IfOk result (IsFoundRun model.now base trace.now) }
    ensures fault { IfErr result (IsCheckFault model.now base seed trace.now) }
{
    let mut position = Position::start(alloc, model, base)?;
    for grant in trace {
        if let Err(fault) = position.step(&GrantRef::of(grant)) {
            return Err(ExploreFault::NotARun(seed, fault));
        }
    }
    Ok(position.nothing_may_run())
}

// The sums of two reports.
fn joined_report(report: &Report, more: &Report) -> Report
    requires first { AddsUp report.now }
    requires second { AddsUp more.now }
    requires few { report.now.events + more.now.events < 2 ^ 64 }
    ensures sums { result ≡ joined_report report.now more.now }
    ensures adds_up { AddsUp result }
{
    Report {
        lost: report.lost + more.lost,
        events: report.events + more.events,
        grants: report.grants + more.grants,
        refusals: report.refusals + more.refusals,
        idle: report.idle + more.idle,
        skipped: report.skipped + more.skipped,
    }
}
