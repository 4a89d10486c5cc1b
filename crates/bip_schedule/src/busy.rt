//! Events by chance that have something to do: which one a word is, in a world.
ghost use Rattle.std.specs.Prelude.{◌≡◌, ◌<◌, ◌≤◌, ◌+◌, ◌-◌, ◌*◌, ◌%◌, ◌∷◌, [], IfNone, IfSome};
ghost use Rattle.std.specs.Prelude.{IsTrue, List, length, ℕ};
ghost use Rattle.bip_bank.specs.Laws.{MovesInOneWay};
ghost use Rattle.bip_core.specs.Events.{HasWork};
ghost use Rattle.bip_core.specs.Worlds.{world_of};
ghost use Rattle.bip_core.specs.declared.events.Event.TheVariants.{Bank};
ghost use Rattle.bip_model.specs.declared.numbering.InterId.{InterId};
ghost use Rattle.bip_schedule.specs.Busy.{AreWithoutWork, FindsNone, HaveWork, IsBusyAmong};
ghost use Rattle.bip_schedule.specs.Busy.{IsBusyDrawn, HasStationCount};
ghost use Rattle.bip_schedule.specs.Busy.{IsDrawnOfKind, IsQuiet, IsQuietKind, arrival_at};
ghost use Rattle.bip_schedule.specs.Busy.{arriving, asked_at, asked_count, kinds_of};
ghost use Rattle.bip_schedule.specs.Writing.{HasSpelling, HaveSpelling};
ghost use Rattle.bip_schedule.specs.declared.busy.EventKind.TheVariants.{Try};

use bip_bank::{Bank, BankStep, step_at, step_count};
use bip_core::{Event, World};
use bip_model::InterId;
use bip_partition::Plan;

/// A kind of events.
#[derive(Clone, Copy, Debug, PartialEq, Eq)]
pub enum EventKind {
    /// A message is handed on.
    Mail,
    /// A class tries an interaction.
    Try,
    /// The bank does a step.
    Step,
}

/// The event of a word among those that have something to do in a world; none where no event has
/// (docs/ANSWERS.md, "Busy events by chance"). It is so where what stations share moves in one way,
/// as with each bank of these crates; of another form nothing is said. It has a spelling.
pub fn busy_event<'p, B: Bank>(world: &World<'p, B>, word: u32) -> Option<Event>
    ensures some { IfSome result (λ e. MovesInOneWay (world_of world.now).bank.sharing
        → IsBusyDrawn (world_of world.now) word e) }
    ensures none { IfNone result (MovesInOneWay (world_of world.now).bank.sharing
        → IsQuiet (world_of world.now)) }
    ensures spelled { IfSome result (λ e. HaveSpelling (world_of world.now).plan (e ∷ [])) }
{
    let plan = world.plan();
    plan.recall();
    let stations = plan.stations().len();
    let number = word / 4;
    let (first, second, third) = kinds_of(word);
    if let Some(event) = take(world, stations, first, number) {
        return Some(event);
    }
    if let Some(event) = take(world, stations, second, number) {
        return Some(event);
    }
    take(world, stations, third, number)
}

/// The kinds of a word, the one first that is asked first.
fn kinds_of(word: u32) -> (EventKind, EventKind, EventKind)
    ensures { kinds_of word ≡ result.0 ∷ result.1 ∷ result.2 ∷ [] }
{
    match word % 4 {
        2 => (EventKind::Try, EventKind::Step, EventKind::Mail),
        3 => (EventKind::Step, EventKind::Mail, EventKind::Try),
        _ => (EventKind::Mail, EventKind::Try, EventKind::Step),
    }
}

/// The event that a number takes among those of a kind that have something to do, if there are any:
/// all arrivals have.
fn take<'p, B: Bank>(
    world: &World<'p, B>,
    stations: usize,
    kind: EventKind,
    number: u32,
) -> Option<Event>
    requires few { stations ≤ 65536 }
    requires counted { HasStationCount (world_of world.now).plan stations }
    ensures some { IfSome result (λ e. MovesInOneWay (world_of world.now).bank.sharing
        → IsDrawnOfKind (world_of world.now) stations kind number e) }
    ensures none { IfNone result (MovesInOneWay (world_of world.now).bank.sharing
        → IsQuietKind (world_of world.now) stations kind) }
    ensures spelled { (list : List InterId) → length list ≡ stations
        → IfSome result (HasSpelling (world_of world.now).plan list) }
{
    let arriving = arriving(world, kind) as u128;
    let asked = count_asked(world, stations, kind);
    let busy = arriving + asked as u128;
    if busy == 0 {
        return None;
    }
    let place = number as u128 % busy;
    if place < arriving {
        return Some(arrival_at(kind, place as usize));
    }
    find_asked(world, stations, kind, (place - arriving) as usize)
}

/// How many events of a kind are arrivals.
fn arriving<'p, B: Bank>(world: &World<'p, B>, kind: EventKind) -> usize
    ensures { result ≡ arriving (world_of world.now) kind }
{
    match kind {
        EventKind::Mail => world.mails(),
        EventKind::Try => 0,
        EventKind::Step => world.bank().in_flight(),
    }
}

/// The arrival with a place.
fn arrival_at(kind: EventKind, place: usize) -> Event
    ensures { result ≡ arrival_at kind place }
{
    match kind {
        EventKind::Step => Event::Bank(BankStep::Deliver(place)),
        _ => Event::Mail(place),
    }
}

/// How many events of a kind about which is asked have something to do.
fn count_asked<'p, B: Bank>(world: &World<'p, B>, stations: usize, kind: EventKind) -> usize
    requires few { stations ≤ 65536 }
    requires counted { HasStationCount (world_of world.now).plan stations }
    ensures { let p = (world_of world.now).plan
        in HaveWork (world_of world.now) (asked_at p stations kind) (asked_count p stations kind)
        result }
{
    let count = asked_count(world, stations, kind);
    let mut busy = 0;
    let mut number = idle_until(world, stations, kind, 0).min(count);
    while number < count {
        if world.has_work(asked_at(world, stations, kind, number)) {
            busy += 1;
        }
        number = idle_until(world, stations, kind, number + 1).min(count);
    }
    busy
}

/// The event of a kind about which is asked that has something to do, as so many before it have.
fn find_asked<'p, B: Bank>(
    world: &World<'p, B>,
    stations: usize,
    kind: EventKind,
    before: usize,
) -> Option<Event>
    requires few { stations ≤ 65536 }
    requires counted { HasStationCount (world_of world.now).plan stations }
    ensures some { let p = (world_of world.now).plan
        in IfSome result (IsBusyAmong (world_of world.now) (asked_at p stations kind)
        (asked_count p stations kind) before) }
    ensures none { let p = (world_of world.now).plan
        in IfNone result (FindsNone (world_of world.now) (asked_at p stations kind)
        (asked_count p stations kind) before) }
    ensures spelled { (list : List InterId) → length list ≡ stations
        → IfSome result (HasSpelling (world_of world.now).plan list) }
{
    let count = asked_count(world, stations, kind);
    let mut left = before;
    let mut number = idle_until(world, stations, kind, 0).min(count);
    while number < count {
        let event = asked_at(world, stations, kind, number);
        if world.has_work(event) {
            if left == 0 {
                return Some(event);
            }
            left -= 1;
        }
        number = idle_until(world, stations, kind, number + 1).min(count);
    }
    None
}

/// A number up to which, from one on, none of a kind about which is asked has anything to do.
fn idle_until<'p, B: Bank>(
    world: &World<'p, B>,
    stations: usize,
    kind: EventKind,
    from: usize,
) -> usize
    requires counted { HasStationCount (world_of world.now).plan stations }
    ensures onward { from ≤ result }
    ensures idle { let p = (world_of world.now).plan
        in AreWithoutWork (world_of world.now) (asked_at p stations kind) from result }
{
    match kind {
        EventKind::Step => {
            world.recall();
            world.bank().idle_until(from)
        }
        _ => from,
    }
}

/// How many events of a kind there are about which is asked.
fn asked_count<'p, B: Bank>(world: &World<'p, B>, stations: usize, kind: EventKind) -> usize
    requires few { stations ≤ 65536 }
    ensures { result ≡ asked_count (world_of world.now).plan stations kind }
{
    match kind {
        EventKind::Mail => 0,
        EventKind::Try => world.plan().model().interactions().len(),
        EventKind::Step => step_count(stations),
    }
}

/// The event with a number of those about which is asked.
fn asked_at<'p, B: Bank>(
    world: &World<'p, B>,
    stations: usize,
    kind: EventKind,
    number: usize,
) -> Event
    requires few { stations ≤ 65536 }
    requires within { number < asked_count (world_of world.now).plan stations kind }
    ensures event { result ≡ asked_at (world_of world.now).plan stations kind number }
    ensures spelled { (list : List InterId) → length list ≡ stations
        → HasSpelling (world_of world.now).plan list result }
{
    match kind {
        EventKind::Mail => unreachable!(),
        EventKind::Try => try_of(world.plan(), number),
        EventKind::Step => Event::Bank(step_at(stations, number)),
    }
}

/// The try of an interaction, by its number.
fn try_of(plan: &Plan, number: usize) -> Event
    requires within { number < length plan.now.model.interactions }
    ensures event { (n : ℕ) → result ≡ asked_at plan.now n Try number }
    ensures spelled { (list : List InterId) → HasSpelling plan.now list result }
{
    plan.recall();
    let inter = InterId(number as u16);
    Event::Try(plan.class_of(inter), inter)
}
