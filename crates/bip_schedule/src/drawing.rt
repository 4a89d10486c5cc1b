//! Events by chance: which event a word is.
ghost use Rattle.std.specs.Prelude.{◌≡◌, ◌<◌, ◌≤◌, length};
ghost use Rattle.bip_schedule.specs.Drawing.{IsDrawn, kind_drawn, one_of, station_drawn};
ghost use Rattle.bip_schedule.specs.Drawing.{step_drawn, try_drawn};

use bip_bank::{BankStep, StationId};
use bip_core::Event;
use bip_model::InterId;
use bip_partition::Plan;

/// How the event of a word is chosen (docs/ANSWERS.md, "Events by chance").
#[derive(Clone, Copy, Debug, PartialEq, Eq)]
pub enum Draw {
    /// By a table, whether or not it has something to do.
    Table,
    /// Among the events that have something to do.
    Busy,
}

/// What is drawn from a seed: so many events, or with busy ones fewer where none has anything to
/// do, each in this way.
#[derive(Clone, Copy, Debug, PartialEq, Eq)]
pub struct Draws {
    pub count: u32,
    pub by: Draw,
}

/// The event of a word, in a world of a plan with so many messages in flight, whose bank has so
/// many things in flight (docs/ANSWERS.md, "Events by chance").
pub fn event_of(word: u32, mail: usize, plan: &Plan, bank_mail: usize) -> Event
    ensures { IsDrawn plan.now word mail bank_mail result }
{
    let stations = plan.stations().len();
    plan.recall();
    let rest = (word / 4) as usize;
    match word % 4 {
        2 => try_of(plan, rest),
        3 => Event::Bank(step_of(stations, bank_mail, rest)),
        _ => Event::Mail(one_of(mail, rest)),
    }
}

fn try_of(plan: &Plan, number: usize) -> Event
    ensures { result ≡ try_drawn plan.now (length plan.now.model.interactions) number }
{
    let count = plan.model().interactions().len();
    if count == 0 {
        return Event::Mail(0);
    }
    let inter = InterId((number % count) as u16);
    Event::Try(plan.class_of(inter), inter)
}

fn step_of(stations: usize, flight: usize, number: usize) -> BankStep
    requires { stations ≤ 65536 }
    ensures { result ≡ step_drawn stations flight number }
{
    if stations == 0 {
        return BankStep::Deliver(0);
    }
    kind_of(stations, flight, number % 4, number / 4)
}

fn kind_of(stations: usize, flight: usize, kind: usize, number: usize) -> BankStep
    requires some { 0 < stations }
    requires few { stations ≤ 65536 }
    ensures { result ≡ kind_drawn stations flight kind number }
{
    let one = station_of(stations, number);
    let other = station_of(stations, number / stations);
    match kind {
        0 => BankStep::Deliver(one_of(flight, number)),
        1 => BankStep::Serve(one),
        2 => BankStep::Pass(one, other),
        _ => BankStep::Ask(one, other),
    }
}

fn station_of(stations: usize, number: usize) -> StationId
    requires some { 0 < stations }
    requires few { stations ≤ 65536 }
    ensures { result ≡ station_drawn stations number }
{
    StationId((number % stations) as u16)
}

fn one_of(count: usize, number: usize) -> usize
    ensures { result ≡ one_of count number }
{
    number % count.max(1)
}
