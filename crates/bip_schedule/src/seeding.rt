//! Events by chance, done one after another.
ghost use Rattle.std.specs.Prelude.{◌≡◌, ◌<◌, ◌≤◌, ◌∷◌, List, [], IfNone, IfOk, IfSome, OnErr};
ghost use Rattle.std.specs.Prelude.{OnSome};
ghost use Rattle.rand_pcg.specs.Pcg.{pcg32};
ghost use Rattle.bip_model.specs.Numbering.{last_number};
ghost use Rattle.bip_core.specs.Runs.{AddsUp, IsEventCounted, IsRunOfEvents};
ghost use Rattle.bip_core.specs.Worlds.{world_of};
ghost use Rattle.bip_core.specs.declared.events.Event.{Event};
ghost use Rattle.bip_schedule.specs.Seeding.{AreSeeded, EndsDraws, IsDrawnIn};
ghost use Rattle.bip_schedule.specs.Writing.{HaveSpelling};
ghost use Rattle.bip_schedule.specs.declared.drawing.Draw.TheVariants.{Table};

use crate::{Draw, Draws, busy_event, event_of};
use bip_bank::Bank;
use bip_core::{Event, Report, World, run_event};
use bip_walk::generator_of;
use rand_core::utils::NextWord;
use rand_pcg::Lcg64Xsh32;
use std::alloc::{AllocError, Global};

/// Draws so many events from a seed and does them, one after another: each is that of the
/// generator's next word in the world before it. Of busy events there are fewer where none has
/// anything to do. Answers the events, which have a spelling, with their report; the only error is
/// want of memory for that list, and then the world stays as it was (docs/ANSWERS.md, "Events by
/// chance", "Busy events by chance").
pub fn seeded<'p, B: Bank>(
    alloc: Global,
    world: &mut World<'p, B>,
    seed: u64,
    draws: Draws,
) -> Result<(Vec<Event>, Report), AllocError>
    ensures drawn { IfOk result (λ done. AreSeeded seed draws done.0.items (world_of world.old)
        (world_of world.new) done.1) }
    ensures run { IfOk result (λ done. IsRunOfEvents done.0.items (world_of world.old)
        (world_of world.new) done.1) }
    ensures spelled { IfOk result (λ done. HaveSpelling (world_of world.old).plan done.0.items) }
    ensures err { OnErr result (world_of world.new ≡ world_of world.old) }
{
    let mut events = Vec::with_capacity(alloc, draws.count as usize)?;
    let mut words = generator_of(seed);
    let mut report = Report::empty();
    for _ in 0..draws.count {
        match draw_one(world, draws.by, &mut words, &mut report) {
            Some(event) => events.push_reserved(event),
            None => return Ok((events, report)),
        }
    }
    Ok((events, report))
}

/// Does what `seeded` does, and keeps no list of the events.
pub(crate) fn run_seed<'p, B: Bank>(world: &mut World<'p, B>, seed: u64, draws: Draws) -> Report
    ensures drawn { (events : List Event) × AreSeeded seed draws events (world_of world.old)
        (world_of world.new) result }
    ensures counted { result.events ≤ draws.count }
    ensures adds_up { AddsUp result }
{
    let mut words = generator_of(seed);
    let mut report = Report::empty();
    for _ in 0..draws.count {
        let Some(_) = draw_one(world, draws.by, &mut words, &mut report) else {
            return report;
        };
    }
    report
}

/// Draws one event, does it and counts it; none where no word is one.
fn draw_one<'p, B: Bank>(
    world: &mut World<'p, B>,
    by: Draw,
    words: &mut Lcg64Xsh32,
    report: &mut Report,
) -> Option<Event>
    requires room { report.old.events < last_number }
    requires adds_up { AddsUp report.old }
    ensures drawn { IfSome result (IsDrawnIn by (world_of world.old) (pcg32 words.old).0) }
    ensures word { OnSome result (words.new ≡ (pcg32 words.old).1) }
    ensures spelled { IfSome result (λ e. HaveSpelling (world_of world.old).plan (e ∷ [])) }
    ensures done { IfSome result (λ e. IsEventCounted e (world_of world.old) (world_of world.new)
        report.old report.new) }
    ensures adds_up { AddsUp report.new }
    ensures none { IfNone result (EndsDraws by (world_of world.old)) }
    ensures same { IfNone result (world_of world.new ≡ world_of world.old) }
    ensures report { IfNone result (report.new ≡ report.old) }
    ensures words { IfNone result (words.new ≡ (pcg32 words.old).1) }
{
    let event = event_drawn(world, by, words.next_word())?;
    run_event(world, event, report);
    Some(event)
}

/// The event of a word in a world, if it is one.
fn event_drawn<'p, B: Bank>(world: &World<'p, B>, by: Draw, word: u32) -> Option<Event>
    ensures drawn { IfSome result (IsDrawnIn by (world_of world.now) word) }
    ensures spelled { IfSome result (λ e. HaveSpelling (world_of world.now).plan (e ∷ [])) }
    ensures none { IfNone result (EndsDraws by (world_of world.now)) }
{
    match by {
        Draw::Table => Some(event_by_table(world, word)),
        Draw::Busy => busy_event(world, word),
    }
}

/// The event of a word in a world, by the table.
fn event_by_table<'p, B: Bank>(world: &World<'p, B>, word: u32) -> Event
    ensures drawn { IsDrawnIn Table (world_of world.now) word result }
    ensures spelled { HaveSpelling (world_of world.now).plan (result ∷ []) }
{
    let plan = world.plan();
    plan.recall();
    event_of(word, world.mails(), plan, world.bank().in_flight())
}
