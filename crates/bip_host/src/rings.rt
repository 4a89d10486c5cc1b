//! The actor of a ring's station.
ghost use Rattle.std.specs.Prelude.{◌≡◌};
ghost use Rattle.bip_host.specs.Rings.{IsFirstRingActor, RingServes, RingTakes, handing_on};

use crate::actors::{Actor, Step, Turn};
use crate::counts::Counts;
use crate::messages::{ToClass, ToStation};
use crate::settled::Settled;
use crate::stations::{Deciding, StationAct, StationAnswer, on_decided};
use bip_bank::{Queue, StationId};
use bip_model::Request;
use bip_ring::Token;
use bip_table::TableFault;
use std::alloc::Global;
use std::mem;

/// What the actor of a ring's station waits for.
#[derive(Drop)]
pub(crate) enum RingStage {
    /// Nothing.
    Resting,
    /// What comes of a decision.
    Deciding(Deciding<Token>),
    /// That the token is put for the next station.
    Passing,
}

/// The actor of a station of a ring, with its open requests, the oldest first, and the token, while
/// it has that: it decides then on the oldest, and hands the token on to the next station
/// (docs/HOST.md, "Actors").
#[derive(Drop)]
pub struct RingActor {
    next: StationId,
    waiting: Queue<Request>,
    token: Option<Settled<Token>>,
    stage: RingStage,
    /// What its turn comes to so far.
    turn: Turn,
    counts: Counts,
}

impl RingActor {
    /// The actor of a station without requests, behind which this one is the next, and which has
    /// the token, or hasn't.
    pub fn new(alloc: Global, next: StationId, token: Option<Settled<Token>>) -> RingActor
        ensures { IsFirstRingActor next token result }
    {
        RingActor {
            next,
            waiting: Queue::new(alloc),
            token,
            stage: RingStage::Resting,
            turn: Turn::Nothing,
            counts: Counts::default(),
        }
    }

    /// Takes a message. A request for which there is no memory is lost.
    fn take(&mut self, message: ToStation)
        ensures { RingTakes message self.old self.new }
    {
        match message {
            ToStation::Asked(request) => {
                if self.waiting.put_last(request).is_err() {
                    self.counts.lose();
                }
            }
            ToStation::Token(token) => self.token = Some(token),
            // no neighbour of a ring sends these
            ToStation::Ask(_token) => {}
            ToStation::Fork(_fork) => {}
        }
    }

    /// Decides on the oldest open request, if there is one; else hands the token on. It ends where
    /// nothing is decided: memory is wanted for it, or no serial is left.
    #[inline(never)]
    fn serve(&mut self, token: Settled<Token>) -> Step<StationAct>
        ensures { RingServes token self.old result self.new }
    {
        let Some(request) = self.waiting.take_first() else {
            return self.hand_on(token);
        };
        match token.decide(&request) {
            Ok(decided) => {
                let (step, deciding) = on_decided(request, decided);
                self.stage = RingStage::Deciding(deciding);
                step
            }
            Err(TableFault::Memory) => {
                self.counts.lack();
                Step::Over(Turn::Ends)
            }
            Err(_) => Step::Over(Turn::Ends),
        }
    }

    /// Wants that the token is put for the next station.
    fn hand_on(&mut self, token: Settled<Token>) -> Step<StationAct>
        ensures step { result ≡ handing_on self.old token }
        ensures actor { self.new ≡ record self.old { stage = RingStage.Passing } }
    {
        self.stage = RingStage::Passing;
        Step::Act(StationAct::Share(self.next, ToStation::Token(token)))
    }
}

impl Actor for RingActor {
    ghost use Rattle.bip_host.specs.Actors.{IsAwaited};
    ghost use Rattle.bip_host.specs.Rings.{RingAwaits, RingGoesOn, RingHears, RingStarts};
    ghost use Rattle.bip_host.specs.Rings.{rank_ring};
    ghost use Rattle.bip_host.specs.Stations.{StationFits};

    type Heard = ToStation;

    type Act = StationAct;

    type Answer = StationAnswer;

    ghost fits = { StationFits };

    ghost awaits = { λ a act. RingAwaits a.next a.stage act };

    ghost left = { λ a. rank_ring a.stage };

    ghost counted = { λ a. a.counts };

    ghost starts = { RingStarts };

    ghost hears = { RingHears };

    ghost goes_on = { RingGoesOn };

    fn start(&mut self) -> Step<StationAct> {
        Step::Over(Turn::Nothing)
    }

    /// Without the token it does nothing.
    fn idle(&mut self) -> Option<Turn> {
        if self.token.is_some() {
            return None;
        }
        self.turn = Turn::Nothing;
        Some(Turn::Nothing)
    }

    /// Takes a message; with the token, decides on the oldest open request, or hands the token on.
    fn hear(&mut self, heard: Option<ToStation>) -> Step<StationAct>
        ensures step { RingHears self.old heard result self.new }
        ensures awaits { IsAwaited (λ act. RingAwaits self.new.next self.new.stage act) result }
    {
        self.turn = Turn::Nothing;
        if let Some(message) = heard {
            self.turn = Turn::Done;
            self.take(message);
        }
        match self.token.take() {
            Some(token) => self.serve(token),
            None => Step::Over(self.turn),
        }
    }

    /// Answers once its grant stands in the book, and hands the token on once it has answered. What
    /// couldn't be put stays here.
    fn go_on(&mut self, answer: StationAnswer) -> Step<StationAct> {
        match (mem::replace(&mut self.stage, RingStage::Resting), answer) {
            (
                RingStage::Deciding(Deciding::Appending(unsettled, request, serial)),
                StationAnswer::Appended(Some(entry)),
            ) => {
                let stage = RingStage::Deciding(Deciding::Answering(unsettled.settle(&entry)));
                // By calls: what is let go without takes the prover long (CONTRIBUTING, "Proving").
                drop(mem::replace(&mut self.stage, stage));
                Step::Act(StationAct::Answer(ToClass::Granted {
                    entry,
                    request,
                    serial,
                }))
            }
            (
                RingStage::Deciding(Deciding::Appending(unsettled, ..)),
                StationAnswer::Appended(None),
            ) => {
                drop(unsettled);
                Step::Over(Turn::Ends)
            }
            (RingStage::Deciding(Deciding::Answering(token)), StationAnswer::Answered(posted)) => {
                self.counts.post(posted);
                self.hand_on(token)
            }
            (RingStage::Passing, StationAnswer::Shared(None)) => {
                self.counts.pass();
                Step::Over(Turn::Done)
            }
            (RingStage::Passing, StationAnswer::Shared(Some(ToStation::Token(token)))) => {
                drop(self.token.replace(token));
                Step::Over(Turn::Nothing)
            }
            _ => unreachable!(),
        }
    }

    fn counts(&self) -> Counts {
        self.counts
    }
}
