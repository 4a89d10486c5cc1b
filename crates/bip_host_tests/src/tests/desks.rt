//! Hands of actors in memory: a desk, at which is written down what they did in each turn.
ghost use Rattle.std.specs.Prelude.{◌≡◌, IfSome};
ghost use Rattle.bip_host.specs.Classes.{ClassFits};
ghost use Rattle.bip_host.specs.Components.{ComponentFits};
ghost use Rattle.bip_host.specs.Keepers.{IsEntryOf};
ghost use Rattle.bip_host.specs.Stations.{StationFits};
ghost use Rattle.bip_host.specs.declared.classes.ClassAct.TheVariants.{Ask};
ghost use Rattle.bip_host.specs.declared.classes.ClassAnswer.TheVariants.{Decided};

use self::Did::{Appends, Asks, Grants, Looks, Offers, Passes, Refuses, Sends, Strays, Tells};
use bip_bank::{Queue, StationId};
use bip_host::{
    ClassAct, ClassActor, ClassAnswer, ComponentActor, Counts, Entry, ForkActor, Hands, NodeEnd,
    Offering, Outcome as Found, Point, Posted, Reserved, RingActor, SharedBook, StationAct,
    StationAnswer, ToClass, ToStation,
};
use bip_model::{ClassId, CompId, Grant, InterId, Notify, Number, Reply, Request};
use bip_partition::Plan;
use bip_replay::Book;
use bip_table::{Decision, Table, TableFault};
use std::alloc::Global;
use std::process::Abort;
use std::sync::Wait;

/// What hands did.
#[derive(Clone, Copy, Debug, PartialEq, Eq)]
pub(super) enum Did {
    /// For this class an offer of this component with this number is put.
    Offers(ClassId, CompId, Number),
    Passes(Point),
    /// The interaction is asked for, by the request with this number.
    Asks(InterId, u64),
    /// What has become of the grant that waits is looked for.
    Looks,
    Appends(InterId),
    Tells(CompId, Number),
    /// The request with this number is granted, with this serial.
    Grants(InterId, u64, u64),
    /// It is refused, since the component's number isn't above this used one.
    Refuses(u64, CompId, Number),
    Sends(StationId, Shared),
    /// Something is put that no station puts.
    Strays,
}

/// What stations send one another.
#[derive(Clone, Copy, Debug, PartialEq, Eq)]
pub(super) enum Shared {
    Token,
    Ask,
    Fork,
    /// No station sends that.
    Request,
}

/// Of whom classes ask.
#[derive(Drop)]
pub(super) enum Third {
    Table(Table),
    /// A table without memory for an answer.
    Full,
    Words(Later),
    Stations,
}

/// Words whose row is busy at the first request; the grant of the next one waits until it is looked
/// for twice.
#[derive(Drop)]
pub(super) struct Later {
    pub(super) was_busy: bool,
    pub(super) was_looked_for: bool,
    pub(super) waiting: Option<Grant>,
}

impl Later {
    fn ask(&mut self, request: Request) -> ClassAnswer
        ensures { ClassFits (Ask request) result }
    {
        if !self.was_busy {
            self.was_busy = true;
            return ClassAnswer::Busy(request);
        }
        self.waiting = Some(Grant {
            inter: request.inter,
            wants: request.wants,
        });
        ClassAnswer::Waits(0)
    }

    /// The grant that waits, where it was looked for before.
    fn look(&mut self) -> Option<Grant> {
        if !self.was_looked_for {
            self.was_looked_for = true;
            return None;
        }
        self.waiting.take()
    }
}

/// What hands do things with, and what they did.
#[derive(Drop)]
pub(super) struct Desk<'m> {
    alloc: Global,
    book: SharedBook<'m>,
    third: Third,
    /// How many messages are put, and which of them is lost: 0 is none.
    put: u32,
    loses: u32,
    /// What was done before the first turn, and in each one.
    did: Vec<Vec<Did>>,
    /// What stations have put for one another.
    pub(super) sent: Queue<Option<ToStation>>,
}

impl<'m> Desk<'m> {
    /// A desk with an empty book, at which the message with this number is lost.
    pub(super) fn new(
        rt: &impl Abort,
        alloc: Global,
        plan: &'m Plan,
        third: Third,
        loses: u32,
    ) -> Desk<'m> {
        let mut desk = Desk {
            alloc,
            book: SharedBook::of(Book::start(alloc, plan.model(), 0).expect(rt, "memory")),
            third,
            put: 0,
            loses,
            did: Vec::new(alloc),
            sent: Queue::new(alloc),
        };
        desk.turn();
        desk
    }

    /// One more turn begins.
    fn turn(&mut self) {
        let _begun = self.did.push(Vec::new(self.alloc));
    }

    fn note(&mut self, did: Did) {
        if let Some(turn) = self.did.last_mut() {
            let _noted = turn.push(did);
        }
    }

    /// Puts a message: it is lost, or sent.
    fn put(&mut self, did: Did) -> Posted {
        self.note(did);
        self.put = self.put.saturating_add(1);
        if self.put == self.loses {
            Posted::Lost
        } else {
            Posted::Sent
        }
    }

    pub(super) fn append(&mut self, grant: Grant) -> Option<Entry>
        ensures { IfSome result (IsEntryOf grant) }
    {
        self.note(Appends(grant.inter));
        self.book.append(grant)
    }

    fn ask(&mut self, request: Request) -> ClassAnswer
        ensures { ClassFits (Ask request) result }
    {
        let did = Asks(request.inter, request.request);
        let decided = match &mut self.third {
            Third::Stations => return ClassAnswer::Handed(self.put(did)),
            Third::Table(table) => table.decide(&request),
            Third::Full => Err(TableFault::Memory),
            Third::Words(later) => {
                let answer = later.ask(request);
                self.note(did);
                return answer;
            }
        };
        self.note(did);
        ClassAnswer::Decided(self.keep(request, decided))
    }

    /// Looks for the grant that waits: it is appended the second time.
    fn look(&mut self) -> Found {
        self.note(Looks);
        let Third::Words(later) = &mut self.third else {
            return Found::Refused;
        };
        match later.look() {
            None => Found::Waits,
            Some(grant) => match self.append(grant) {
                Some(entry) => Found::Entered(entry),
                None => Found::Refused,
            },
        }
    }

    /// Keeps the grant of a request, where a table decided so.
    fn keep(
        &mut self,
        request: Request,
        decided: Result<Decision, TableFault>,
    ) -> Result<Reserved, TableFault>
        ensures { ClassFits (Ask request) (Decided result) }
    {
        match decided? {
            Decision::Refused { comp, used } => Ok(Reserved::Refused { comp, used }),
            Decision::Granted(serial) => {
                let grant = Grant {
                    inter: request.inter,
                    wants: request.wants,
                };
                match self.append(grant) {
                    Some(entry) => Ok(Reserved::Granted(entry, serial)),
                    None => Err(TableFault::NotKept),
                }
            }
        }
    }

    /// Sends something to a station; where it is lost it comes back.
    fn send(&mut self, to: StationId, message: ToStation) -> Option<ToStation>
        ensures { IfSome result (λ back. back ≡ message) }
    {
        match self.put(Sends(to, kind_of(&message))) {
            Posted::Lost => Some(message),
            Posted::Sent => {
                let _kept = self.sent.put_last(Some(message));
                None
            }
        }
    }
}

/// What a message between stations is.
fn kind_of(message: &ToStation) -> Shared {
    match message {
        ToStation::Token(_) => Shared::Token,
        ToStation::Ask(_) => Shared::Ask,
        ToStation::Fork(_) => Shared::Fork,
        ToStation::Asked(_) => Shared::Request,
    }
}

/// What is put for a class.
fn answered(message: &ToClass) -> Did {
    match message {
        ToClass::Granted {
            entry,
            request,
            serial,
        } => Grants(entry.inter(), *request, *serial),
        ToClass::Refused(
            Reply::Refused {
                request,
                comp,
                used,
                ..
            },
        ) => Refuses(*request, *comp, *used),
        _ => Strays,
    }
}

/// Hands at a desk, that hear these messages, or none, turn by turn.
#[derive(Drop)]
pub(super) struct Fake<'d, 'm, M> {
    desk: &'d mut Desk<'m>,
    heard: Queue<Option<M>>,
}

impl<'d, 'm, M: Drop> Fake<'d, 'm, M> {
    pub(super) fn at(desk: &'d mut Desk<'m>, heard: Queue<Option<M>>) -> Fake<'d, 'm, M> {
        Fake { desk, heard }
    }

    /// Begins a turn, and says whether it has a message.
    fn begin(&mut self) -> bool {
        self.desk.turn();
        if let Some(Some(_)) = self.heard.first() {
            return true;
        }
        let _none = self.heard.take_first();
        false
    }

    fn hear(&mut self) -> Option<M> {
        self.heard.take_first()?
    }
}

impl<'d, 'm, 'p> Hands<ComponentActor<'p>> for Fake<'d, 'm, Notify> {
    ghost drawn = { λ _. 0 };

    fn has_message(&mut self) -> bool {
        self.begin()
    }

    fn receive<W: Wait>(&mut self, _rt: &W) -> Option<Notify> {
        self.hear()
    }

    fn act<W: Wait>(&mut self, _rt: &W, act: Offering) -> Posted
        ensures { ComponentFits act result }
    {
        let Offering { class, offer } = act;
        self.desk.put(Offers(class, offer.comp, offer.number))
    }

    fn count_drawn(&self) -> u64
        ensures { result ≡ 0 }
    {
        0
    }
}

impl<'d, 'm, 'p> Hands<ClassActor<'p>> for Fake<'d, 'm, ToClass> {
    ghost drawn = { λ _. 0 };

    fn has_message(&mut self) -> bool {
        self.begin()
    }

    fn receive<W: Wait>(&mut self, _rt: &W) -> Option<ToClass> {
        self.hear()
    }

    fn act<W: Wait>(&mut self, _rt: &W, act: ClassAct) -> ClassAnswer
        ensures { ClassFits act result }
    {
        match act {
            ClassAct::Append(grant) => ClassAnswer::Appended(self.desk.append(grant)),
            ClassAct::Ask(request) => self.desk.ask(request),
            ClassAct::Look => ClassAnswer::Looked(self.desk.look()),
            ClassAct::Pass(at) => {
                self.desk.note(Passes(at));
                ClassAnswer::Passed
            }
            ClassAct::Tell(told) => {
                ClassAnswer::Told(self.desk.put(Tells(told.comp, told.number)))
            }
        }
    }

    fn count_drawn(&self) -> u64
        ensures { result ≡ 0 }
    {
        0
    }
}

impl<'d, 'm> Fake<'d, 'm, ToStation> {
    fn act_for(&mut self, act: StationAct) -> StationAnswer
        ensures { StationFits act result }
    {
        match act {
            StationAct::Append(grant) => StationAnswer::Appended(self.desk.append(grant)),
            StationAct::Answer(message) => {
                StationAnswer::Answered(self.desk.put(answered(&message)))
            }
            StationAct::Share(to, message) => StationAnswer::Shared(self.desk.send(to, message)),
        }
    }
}

impl<'d, 'm> Hands<RingActor> for Fake<'d, 'm, ToStation> {
    ghost drawn = { λ _. 0 };

    fn has_message(&mut self) -> bool {
        self.begin()
    }

    fn receive<W: Wait>(&mut self, _rt: &W) -> Option<ToStation> {
        self.hear()
    }

    fn act<W: Wait>(&mut self, _rt: &W, act: StationAct) -> StationAnswer
        ensures { StationFits act result }
    {
        self.act_for(act)
    }

    fn count_drawn(&self) -> u64
        ensures { result ≡ 0 }
    {
        0
    }
}

impl<'d, 'm> Hands<ForkActor> for Fake<'d, 'm, ToStation> {
    ghost drawn = { λ _. 0 };

    fn has_message(&mut self) -> bool {
        self.begin()
    }

    fn receive<W: Wait>(&mut self, _rt: &W) -> Option<ToStation> {
        self.hear()
    }

    fn act<W: Wait>(&mut self, _rt: &W, act: StationAct) -> StationAnswer
        ensures { StationFits act result }
    {
        self.act_for(act)
    }

    fn count_drawn(&self) -> u64
        ensures { result ≡ 0 }
    {
        0
    }
}

/// What turns come to: how many were made, what was counted and done, and of which interactions the
/// book has grants.
pub(super) struct Outcome {
    pub(super) turns: u64,
    pub(super) counts: Counts,
    /// What was done before the first turn, and in each one.
    pub(super) did: &'static [&'static [Did]],
    pub(super) grants: &'static [InterId],
}

pub(super) const NOTHING: Counts = Counts {
    told: 0,
    lost: 0,
    passes: 0,
    asks: 0,
    refusals: 0,
    busy: 0,
    wanted_memory: false,
};

fn are_so(did: &[Vec<Did>], turns: &[&[Did]]) -> bool {
    did.len() == turns.len()
        && did
            .iter()
            .zip(turns)
            .all(|(one, other)| one.as_slice() == *other)
}

fn are_of(grants: &[Grant], inters: &[InterId]) -> bool {
    grants.len() == inters.len()
        && grants
            .iter()
            .zip(inters)
            .all(|(grant, inter)| grant.inter == *inter)
}

pub(super) fn comes_to(rt: &impl Abort, end: &NodeEnd, desk: Desk<'_>, outcome: &Outcome) {
    let Desk {
        book,
        third,
        did,
        sent,
        ..
    } = desk;
    drop(third);
    drop(sent);
    assert!(rt; are_so(&did, outcome.did));
    drop(did);
    assert_eq!(rt; end.turns, outcome.turns);
    assert_eq!(rt; end.counts, outcome.counts);
    let grants = book.into_grants().expect(rt, "a run");
    assert!(rt; are_of(&grants, outcome.grants));
    drop(grants);
}
