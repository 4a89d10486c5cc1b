//! The actor of a station that shares forks.
ghost use Rattle.std.specs.Prelude.{◌≡◌, ◌+◌, ◌-◌, ◌<◌, ◌≤◌, IfNone, IfSome, length};
ghost use Rattle.bip_host.specs.Actors.{IsAwaited};
ghost use Rattle.bip_host.specs.Forks.{ForkAwaits, ForkHearsOf, ForkServes, ForkTakes};
ghost use Rattle.bip_host.specs.Forks.{IsFirstForkActor};
ghost use Rattle.bip_host.specs.Forks.{IsNextShared, IsSharing, IsSharingOn, SharesNone};
ghost use Rattle.bip_host.specs.Forks.{rank_fork, shared_by, with_shared};
ghost use Rattle.bip_host.specs.Settled.{IsShareable};

use crate::actors::{Actor, Step, Turn};
use crate::counts::Counts;
use crate::messages::{ToClass, ToStation};
use crate::settled::{Served, Settled};
use crate::stations::{Deciding, StationAct, StationAnswer, on_decided};
use bip_bank::StationId;
use bip_forks::Station;
use std::mem;

/// What the actor of a station with forks waits for.
#[derive(Drop)]
pub(crate) enum ForkStage {
    /// Nothing.
    Resting,
    /// What comes of a decision.
    Deciding(Deciding<Station>),
    /// That something is put for the neighbour at this place.
    Sharing(Settled<Station>, usize, Shared),
}

/// What a station sends a neighbour.
#[derive(Clone, Copy, Debug, PartialEq, Eq)]
pub(crate) enum Shared {
    Fork,
    Ask,
}

/// The actor of a station that shares forks, with its neighbours in order of number: it decides on
/// its oldest open request where it has all its forks; then it sends each neighbour the fork that
/// they share, where it may, and else asks for it, where it may (docs/HOST.md, "Actors").
#[derive(Drop)]
pub struct ForkActor {
    neighbours: Vec<StationId>,
    /// What decides, between turns.
    station: Option<Settled<Station>>,
    stage: ForkStage,
    /// What its turn comes to so far.
    turn: Turn,
    counts: Counts,
}

impl ForkActor {
    /// The actor of a station, which has these neighbours.
    pub fn new(neighbours: Vec<StationId>, station: Option<Settled<Station>>) -> ForkActor
        ensures { IsFirstForkActor neighbours.items station result }
    {
        ForkActor {
            neighbours,
            station,
            stage: ForkStage::Resting,
            turn: Turn::Nothing,
            counts: Counts::default(),
        }
    }

    /// Takes a message. A request for which there is no memory is lost.
    fn take(&mut self, station: &mut Settled<Station>, message: ToStation)
        ensures { ForkTakes message self.old station.old.decider self.new station.new.decider }
    {
        match message {
            ToStation::Asked(request) => {
                let posted = station.submit(request);
                self.counts.post(posted);
            }
            ToStation::Ask(token) => station.take_ask(token),
            ToStation::Fork(fork) => station.take_fork(fork),
            // that goes round in a ring alone
            ToStation::Token(_token) => {}
        }
    }

    /// Takes a message, and decides.
    fn hear_message(
        &mut self,
        mut station: Settled<Station>,
        message: ToStation,
    ) -> Step<StationAct>
        ensures step { ForkHearsOf message station.decider self.old result self.new }
        ensures awaits { IsAwaited (λ act.
            ForkAwaits self.new.neighbours.items self.new.stage act) result }
    {
        self.take(&mut station, message);
        self.serve(station)
    }

    /// Goes on to the next neighbour, once this was put for the one at this place; what couldn't be
    /// put stays here.
    fn go_on_sharing(
        &mut self,
        mut station: Settled<Station>,
        place: usize,
        shared: Shared,
        back: Option<ToStation>,
    ) -> Step<StationAct>
        requires shareable { IfSome back IsShareable }
        requires place { place < length self.old.neighbours.items }
        ensures step { IsSharingOn shared back station.decider place self.old result self.new }
        ensures awaits { IsAwaited (λ act.
            ForkAwaits self.new.neighbours.items self.new.stage act) result }
        ensures left { rank_fork (length self.new.neighbours.items) self.new.stage
            ≤ length self.old.neighbours.items - (place + 1)
            + rank_fork (length self.old.neighbours.items) self.old.stage }
    {
        match back {
            None => {
                self.count(shared);
                self.turn = Turn::Done;
                self.share(station, place + 1)
            }
            Some(back) => {
                station.take_back(back);
                self.share(station, place + 1)
            }
        }
    }

    /// Counts what is sent.
    fn count(&mut self, shared: Shared)
        ensures { self.new ≡ record self.old { counts = with_shared shared self.old.counts } }
    {
        match shared {
            Shared::Fork => self.counts.pass(),
            Shared::Ask => self.counts.ask(),
        }
    }

    /// Decides on the oldest open request, where it has all its forks; else shares these. It ends
    /// where memory is wanted for a decision.
    fn serve(&mut self, station: Settled<Station>) -> Step<StationAct>
        ensures step { ForkServes station.decider self.old result self.new }
        ensures awaits { IsAwaited (λ act.
            ForkAwaits self.new.neighbours.items self.new.stage act) result }
    {
        match station.serve() {
            Ok(Served::Nothing(station)) => self.share(station, 0),
            Ok(Served::Answered(decided, request)) => {
                let (step, deciding) = on_decided(request, decided);
                self.turn = Turn::Done;
                drop(mem::replace(&mut self.stage, ForkStage::Deciding(deciding)));
                step
            }
            Err(_) => {
                self.counts.lack();
                Step::Over(Turn::Ends)
            }
        }
    }

    /// Goes on to the next neighbour to which something may be sent, from this place on.
    fn share(&mut self, mut station: Settled<Station>, from: usize) -> Step<StationAct>
        ensures step { IsSharing station.decider from self.old result self.new }
        ensures awaits { IsAwaited (λ act.
            ForkAwaits self.new.neighbours.items self.new.stage act) result }
        ensures left { rank_fork (length self.new.neighbours.items) self.new.stage
            ≤ length self.old.neighbours.items - from
            + rank_fork (length self.old.neighbours.items) self.old.stage }
    {
        let Some((place, other)) = self.next_shared(&station, from) else {
            // By calls: what is let go without takes the prover long (CONTRIBUTING, "Proving").
            drop(self.station.replace(station));
            return Step::Over(self.turn);
        };
        let message = station.share(other);
        let stage = ForkStage::Sharing(station, place, shared_by(&message));
        drop(mem::replace(&mut self.stage, stage));
        Step::Act(StationAct::Share(other, message))
    }

    /// The place and the number of the next neighbour to which something may be sent.
    fn next_shared(&self, station: &Settled<Station>, from: usize) -> Option<(usize, StationId)>
        ensures some { IfSome result (λ found.
            IsNextShared self.now.neighbours.items station.now.decider from found.0 found.1) }
        ensures none { IfNone result
            (SharesNone self.now.neighbours.items station.now.decider from) }
    {
        for place in from..self.neighbours.len() {
            let other = self.neighbours[place];
            if station.may_share(other) {
                return Some((place, other));
            }
        }
        None
    }
}

/// Which of the two a message is.
fn shared_by(message: &ToStation) -> Shared
    ensures { result ≡ shared_by message.now }
{
    match message {
        ToStation::Fork(_) => Shared::Fork,
        _ => Shared::Ask,
    }
}

impl Actor for ForkActor {
    ghost use Rattle.std.specs.Prelude.{length};
    ghost use Rattle.bip_host.specs.Actors.{IsAwaited};
    ghost use Rattle.bip_host.specs.Forks.{ForkAwaits, ForkGoesOn, ForkHears, ForkStarts};
    ghost use Rattle.bip_host.specs.Forks.{rank_fork};
    ghost use Rattle.bip_host.specs.Stations.{StationFits};

    type Heard = ToStation;

    type Act = StationAct;

    type Answer = StationAnswer;

    ghost fits = { StationFits };

    ghost awaits = { λ a act. ForkAwaits a.neighbours.items a.stage act };

    ghost left = { λ a. rank_fork (length a.neighbours.items) a.stage };

    ghost counted = { λ a. a.counts };

    ghost starts = { ForkStarts };

    ghost hears = { ForkHears };

    ghost goes_on = { ForkGoesOn };

    fn start(&mut self) -> Step<StationAct> {
        Step::Over(Turn::Nothing)
    }

    /// Where it can neither decide nor share anything it does nothing.
    fn idle(&mut self) -> Option<Turn> {
        let Some(station) = &self.station else {
            return None;
        };
        if station.is_ready() {
            return None;
        }
        match self.next_shared(station, 0) {
            Some(_) => None,
            None => {
                self.turn = Turn::Nothing;
                Some(Turn::Nothing)
            }
        }
    }

    /// Takes a message; decides on the oldest open request, where it has all its forks; else shares
    /// these. It ends where memory is wanted for a decision.
    fn hear(&mut self, heard: Option<ToStation>) -> Step<StationAct>
        ensures step { ForkHears self.old heard result self.new }
        ensures awaits { IsAwaited (λ act.
            ForkAwaits self.new.neighbours.items self.new.stage act) result }
    {
        let Some(station) = self.station.take() else {
            return Step::Over(Turn::Ends);
        };
        match heard {
            None => {
                self.turn = Turn::Nothing;
                self.serve(station)
            }
            Some(message) => {
                self.turn = Turn::Done;
                self.hear_message(station, message)
            }
        }
    }

    /// Answers once its grant stands in the book, and shares its forks once it has answered. What
    /// couldn't be put stays here.
    fn go_on(&mut self, answer: StationAnswer) -> Step<StationAct> {
        match (mem::replace(&mut self.stage, ForkStage::Resting), answer) {
            (
                ForkStage::Deciding(Deciding::Appending(unsettled, request, serial)),
                StationAnswer::Appended(Some(entry)),
            ) => {
                let stage = ForkStage::Deciding(Deciding::Answering(unsettled.settle(&entry)));
                drop(mem::replace(&mut self.stage, stage));
                Step::Act(StationAct::Answer(ToClass::Granted {
                    entry,
                    request,
                    serial,
                }))
            }
            (
                ForkStage::Deciding(Deciding::Appending(unsettled, ..)),
                StationAnswer::Appended(None),
            ) => {
                drop(unsettled);
                Step::Over(Turn::Ends)
            }
            (ForkStage::Deciding(Deciding::Answering(station)), StationAnswer::Answered(posted)) =>
                {
                    self.counts.post(posted);
                    self.share(station, 0)
                }
            (ForkStage::Sharing(station, place, shared), StationAnswer::Shared(back)) => {
                self.go_on_sharing(station, place, shared, back)
            }
            _ => unreachable!(),
        }
    }

    fn counts(&self) -> Counts {
        self.counts
    }
}
