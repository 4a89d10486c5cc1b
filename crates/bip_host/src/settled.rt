//! What decides for a station, and when it may be handed on.
ghost use Rattle.std.specs.Prelude.{◌≡◌, ◌↔◌, Err, IfErr, IfOk, IfSome, IsTrue, false, true};
ghost use Rattle.bip_forks.specs.Opening.{IsNewStation};
ghost use Rattle.bip_bank.specs.Opening.{IsOpening};
ghost use Rattle.bip_forks.specs.Stations.{IsReadyToServe};
ghost use Rattle.bip_host.specs.Settled.{IsAsServed, IsAskTaken, IsDecidedByToken, IsDecidedOn};
ghost use Rattle.bip_host.specs.Settled.{IsForkLaid, IsOfDecision, SharesWith, IsShareable};
ghost use Rattle.bip_host.specs.Settled.{IsSubmitted, IsTakenBack, MayShare, decider_in};
ghost use Rattle.bip_table.specs.Reservations.{IsTableAnswer};

use crate::books::{Entry, Mover};
use crate::counts::Posted;
use crate::messages::ToStation;
use bip_bank::StationId;
use bip_forks::{AskToken, Fork, Station};
use bip_model::{CompId, InterId, Number, Request};
use bip_partition::Plan;
use bip_ring::Token;
use bip_table::{Decision, TableFault};
use std::alloc::{AllocError, Global};

/// What decides on requests, and each of its grants stands in the book: so it may be handed on, and
/// what it shares.
#[derive(Drop)]
pub struct Settled<T> {
    decider: T,
}

/// What has granted this interaction, with this mover. The entry of that grant settles it, and
/// nothing else.
#[derive(Drop)]
pub(crate) struct Unsettled<T> {
    decider: T,
    inter: InterId,
    mover: Option<Mover>,
}

impl<T> Unsettled<T> {
    /// Settles what decides, by the entry of the grant.
    pub(crate) fn settle(self, _entry: &Entry) -> Settled<T>
        requires inter { _entry.now.inter ≡ self.inter }
        requires mover { _entry.now.mover ≡ self.mover }
        ensures { result.decider ≡ self.decider }
    {
        Settled {
            decider: self.decider,
        }
    }
}

/// What comes of a decision.
#[derive(Drop)]
pub(crate) enum Decided<T> {
    /// The request is granted with this serial.
    Granted(Unsettled<T>, u64),
    /// The request is refused: this component's number isn't above the used one.
    Refused(Settled<T>, CompId, Number),
}

impl<T> Decided<T> {
    /// What comes of this decision on a request.
    fn of(decider: T, request: &Request, decision: Decision) -> Decided<T>
        ensures on { IsDecidedOn request.now result }
        ensures so { IsOfDecision decision result }
        ensures left { decider_in result ≡ decider }
    {
        let inter = request.inter;
        let mover = Mover::of(&request.wants);
        match decision {
            Decision::Granted(serial) => {
                Decided::Granted(
                    Unsettled {
                        decider,
                        inter,
                        mover,
                    },
                    serial,
                )
            }
            Decision::Refused { comp, used } => Decided::Refused(Settled { decider }, comp, used),
        }
    }
}

impl Settled<Token> {
    /// The token of a plan's ring, which has granted nothing.
    pub fn first(alloc: Global, plan: &Plan) -> Result<Settled<Token>, AllocError>
        ensures { IfOk result (λ settled. IsOpening plan.now 0 settled.decider.table) }
    {
        let decider = Token::new(alloc, plan, 0)?;
        Ok(Settled { decider })
    }

    /// Decides on a request, as the token's table does. Where nothing is decided, the token goes
    /// with it.
    pub(crate) fn decide(self, request: &Request) -> Result<Decided<Token>, TableFault>
        ensures decided { IfOk result (IsDecidedByToken self.decider request.now) }
        ensures fault { IfErr result (λ why.
            IsTableAnswer self.decider.table request.now.wants (Err why)) }
    {
        let Settled { mut decider } = self;
        let decision = decider.decide(request)?;
        Ok(Decided::of(decider, request, decision))
    }
}

/// What comes of a turn of a station that shares forks.
#[derive(Drop)]
pub(crate) enum Served {
    /// It decides nothing: it lacks a fork, or no request is open.
    Nothing(Settled<Station>),
    /// It decides on this request.
    Answered(Decided<Station>, Request),
}

impl Settled<Station> {
    /// The station of a plan with this number, if the plan has it, which has granted nothing.
    pub fn first(
        alloc: Global,
        plan: &Plan,
        number: StationId,
    ) -> Result<Option<Settled<Station>>, AllocError>
        ensures { IfOk result (λ made. IfSome made (λ settled.
            IsNewStation plan.now 0 number.0 settled.decider)) }
    {
        match Station::new(alloc, plan, number, 0)? {
            Some(decider) => Ok(Some(Settled { decider })),
            None => Ok(None),
        }
    }

    /// Whether it can decide on a request: one is open, and it has all its forks.
    pub(crate) fn is_ready(&self) -> bool
        ensures { IsTrue result ↔ IsReadyToServe self.now.decider }
    {
        self.decider.is_ready()
    }

    /// Makes a request the newest open one, where there is memory.
    pub(crate) fn submit(&mut self, request: Request) -> Posted
        ensures { IsSubmitted request self.old.decider result self.new.decider }
    {
        match self.decider.submit(request) {
            Ok(()) => Posted::Sent,
            Err(_) => Posted::Lost,
        }
    }

    /// Takes a request token, if it is one that the station can take.
    pub(crate) fn take_ask(&mut self, token: AskToken)
        ensures { IsAskTaken token self.old.decider self.new.decider }
    {
        let _refused = self.decider.take_ask(token);
    }

    /// Takes a fork, which is clean then, if it is one that the station can take.
    pub(crate) fn take_fork(&mut self, fork: Fork)
        ensures { IsForkLaid fork true self.old.decider self.new.decider }
    {
        let _refused = self.decider.take_fork(fork);
    }

    /// Takes back what couldn't be sent: a fork, which is dirty then, or a request token.
    pub(crate) fn take_back(&mut self, message: ToStation)
        requires { IsShareable message }
        ensures { IsTakenBack message self.old.decider self.new.decider }
    {
        match message {
            ToStation::Fork(fork) => self.lay_back(fork),
            ToStation::Ask(token) => self.take_ask(token),
            _ => unreachable!(),
        }
    }

    /// Lays a fork back that couldn't be sent: it is dirty.
    fn lay_back(&mut self, fork: Fork)
        ensures { IsForkLaid fork false self.old.decider self.new.decider }
    {
        let _refused = self.decider.back(fork);
    }

    /// Whether something may be sent to another station: the fork that they share, or its request
    /// token.
    pub(crate) fn may_share(&self, other: StationId) -> bool
        ensures { IsTrue result ↔ MayShare self.now.decider other }
    {
        self.decider.may_pass(other) || self.decider.may_ask(other)
    }

    /// What is sent to another station: the fork that they share, where it may be, and else its
    /// request token.
    pub(crate) fn share(&mut self, other: StationId) -> ToStation
        requires { MayShare self.old.decider other }
        ensures { SharesWith other self.old.decider result self.new.decider }
    {
        if let Some(fork) = self.decider.pass(other) {
            return ToStation::Fork(fork);
        }
        match self.decider.ask(other) {
            Some(token) => ToStation::Ask(token),
            None => unreachable!(),
        }
    }

    /// Decides on the oldest open request, where the station has all its forks. Where memory is
    /// wanted, the station goes with it.
    pub(crate) fn serve(self) -> Result<Served, AllocError>
        // It is what the station decides on its oldest open request.
        ensures served { IfOk result (IsAsServed self.decider) }
        ensures lacks { IfErr result (λ why. IsReadyToServe self.decider) }
    {
        let Settled { mut decider } = self;
        match decider.serve()? {
            Some((request, decision)) => {
                let decided = Decided::of(decider, &request, decision);
                Ok(Served::Answered(decided, request))
            }
            None => Ok(Served::Nothing(Settled { decider })),
        }
    }
}
