//! Actors: nodes as plain states, whose turns are chains of acts; and the loop that lends them its
//! hands.
ghost use Rattle.std.specs.Prelude.{◌≤◌};

use crate::aims::Watch;
use crate::counts::Counts;
use std::sync::Wait;

/// What an actor does next.
#[derive(Drop)]
pub enum Step<A> {
    /// This act, whose answer it waits for.
    Act(A),
    /// Nothing more in this turn.
    Over(Turn),
}

/// What a turn comes to.
#[derive(Clone, Copy, Debug, PartialEq, Eq)]
pub enum Turn {
    Done,
    Nothing,
    /// The node ends.
    Ends,
}

/// A node as a plain state: it holds no inbox, no lock and no gate. Its turn is a chain of steps:
/// it hears a message or none, and wants an act; it hears that act's answer, and wants the next
/// one, until its turn is over (docs/HOST.md, "Actors").
pub trait Actor {
    ghost use Rattle.std.specs.Prelude.{◌≡◌, ◌<◌, ℕ, IfNone, IfSome, None, Option};
    ghost use Rattle.bip_host.specs.Actors.{IsAwaited};
    ghost use Rattle.bip_host.specs.declared.actors.Step.{Step};
    ghost use Rattle.bip_host.specs.declared.actors.Step.TheVariants.{Over};
    ghost use Rattle.bip_host.specs.declared.counts.Counts.{Counts};

    type Heard;

    type Act;

    type Answer;

    /// Which answers an act can have.
    ghost fits: { Self.Act → Self.Answer → Type 0 };

    /// Whether an actor waits for an act's answer.
    ghost awaits: { Self → Self.Act → Type 0 };

    /// More than how many acts an actor can't want any more in its turn.
    ghost left: { Self → ℕ };

    /// What an actor has counted.
    ghost counted: { Self → Counts };

    /// Actor, step, actor: what the start may make of it.
    ghost starts: { Self → Step Self.Act → Self → Type 0 };

    /// Actor, message, step, actor: what a turn's first step may make of it.
    ghost hears: { Self → Option Self.Heard → Step Self.Act → Self → Type 0 };

    /// Actor, answer, step, actor: what a later step may make of it.
    ghost goes_on: { Self → Self.Answer → Step Self.Act → Self → Type 0 };

    /// What it does before its first turn.
    fn start(&mut self) -> Step<Self::Act>
        ensures step { starts self.old result self.new }
        ensures awaits { IsAwaited (awaits self.new) result };

    /// A turn without a message that wants no act either, as most are: what it comes to. Where it
    /// would want one, none, and nothing has changed. It has no room for an act.
    fn idle(&mut self) -> Option<Turn>
        ensures turn { IfSome result (λ turn. hears self.old None (Over turn) self.new) }
        ensures none { IfNone result (self.new ≡ self.old) };

    /// Hears at most one message.
    fn hear(&mut self, heard: Option<Self::Heard>) -> Step<Self::Act>
        ensures step { hears self.old heard result self.new }
        ensures awaits { IsAwaited (awaits self.new) result };

    /// Hears the answer of the act that it waits for.
    fn go_on(&mut self, answer: Self::Answer) -> Step<Self::Act>
        requires { (act : Self.Act) × awaits self.old act × fits act answer }
        ensures step { goes_on self.old answer result self.new }
        ensures awaits { IsAwaited (awaits self.new) result }
        ensures fewer { left self.new < left self.old };

    /// What it has counted so far.
    fn counts(&self) -> Counts
        ensures { result ≡ counted self.now };

    /// Whether a request of its own is open, whose answer another node owes it.
    fn has_open_request(&self) -> bool {
        false
    }
}

/// What an actor hears with, and acts with: inboxes, the third layer, the book, a gate.
pub trait Hands<A: Actor> {
    ghost use Rattle.std.specs.Prelude.{◌≡◌, ℕ};

    /// How many grants were drawn with them from a word table.
    ghost drawn: { Self → ℕ };

    /// Whether a message is there. Nothing is received by looking, and no room made for it.
    fn has_message(&mut self) -> bool;

    /// The next message, if there is one.
    fn receive<R: Wait>(&mut self, rt: &R) -> Option<A::Heard>;

    /// Does an act, and gives its answer.
    fn act<R: Wait>(&mut self, rt: &R, act: A::Act) -> A::Answer
        ensures { A.fits act result };

    /// How many grants were drawn with them, by the list that they keep themselves.
    fn count_drawn(&self) -> u64
        ensures { result ≡ drawn self.now };
}

/// What a node's thread leaves: how many turns it made, what it counted, and how many grants were
/// drawn with its hands.
#[derive(Clone, Copy, Default)]
pub struct NodeEnd {
    pub turns: u64,
    pub counts: Counts,
    pub drawn: u64,
}

/// Starts an actor, and makes so many turns, or fewer where it ends before, or its host is over
/// (docs/HOST.md, "Turns").
pub fn run_actor<A: Actor + Drop, H: Hands<A> + Drop, R: Wait>(
    rt: &R,
    mut actor: A,
    mut hands: H,
    turns: u32,
    mut watch: Watch<'_>,
) -> NodeEnd
    ensures { result.turns ≤ turns }
{
    if let Step::Act(act) = actor.start() {
        let _begun = finish(rt, &mut actor, &mut hands, act);
    }
    let mut made = 0;
    for number in 0..turns {
        if watch.is_over() {
            break;
        }
        made = u64::from(number) + 1;
        match make_turn(rt, &mut actor, &mut hands) {
            Turn::Done => watch.stir(),
            Turn::Nothing => {
                watch.idle(&actor);
                watch.give_way();
            }
            Turn::Ends => break,
        }
    }
    NodeEnd {
        turns: made,
        counts: actor.counts(),
        drawn: hands.count_drawn(),
    }
}

/// Makes a turn, and says what it came to.
fn make_turn<A: Actor, H: Hands<A>, R: Wait>(rt: &R, actor: &mut A, hands: &mut H) -> Turn {
    if hands.has_message() {
        return hear_next(rt, actor, hands);
    }
    match actor.idle() {
        Some(turn) => turn,
        None => hear(rt, actor, hands, None),
    }
}

/// Lets an actor hear the next message. Only a turn that has one pays for its room.
#[inline(never)]
fn hear_next<A: Actor, H: Hands<A>, R: Wait>(rt: &R, actor: &mut A, hands: &mut H) -> Turn {
    let heard = hands.receive(rt);
    hear(rt, actor, hands, heard)
}

/// Lets an actor hear at most one message, and does what it wants then. Only a turn that may want
/// an act pays for its room.
#[inline(never)]
fn hear<A: Actor, H: Hands<A>, R: Wait>(
    rt: &R,
    actor: &mut A,
    hands: &mut H,
    heard: Option<A::Heard>,
) -> Turn {
    match actor.hear(heard) {
        Step::Over(turn) => turn,
        Step::Act(act) => finish(rt, actor, hands, act),
    }
}

/// Does what an actor wants, until its turn is over, and says what that came to.
#[inline(never)]
fn finish<A: Actor, H: Hands<A>, R: Wait>(
    rt: &R,
    actor: &mut A,
    hands: &mut H,
    mut act: A::Act,
) -> Turn
    requires { A.awaits actor.old act }
{
    loop {
        match actor.go_on(hands.act(rt, act)) {
            Step::Over(turn) => return turn,
            Step::Act(next) => act = next,
        }
    }
}
