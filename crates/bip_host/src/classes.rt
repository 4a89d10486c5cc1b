//! The actor of a class.
ghost use Rattle.std.specs.Prelude.{◌≡◌, ◌+◌, ◌-◌, ◌<◌, ◌≤◌, IfOk, length};
ghost use Rattle.bip_host.specs.Actors.{IsAwaited};
ghost use Rattle.bip_host.specs.Classes.{ClassAwaits, ClassHearsOf, IsErrandDone};
ghost use Rattle.bip_host.specs.Classes.{IsFirstClassActor, IsNextDone, IsOfferHeard};
ghost use Rattle.bip_host.specs.Classes.{IsOnDecision, IsOnEntry, IsOnGrant, IsOnOutcome};
ghost use Rattle.bip_host.specs.Classes.{IsOnRefusal, IsOnTold, IsRest, IsTrial, IsTrialOf};
ghost use Rattle.bip_host.specs.Classes.{left_of_class, place_next, rank_class, stage_of_try};
ghost use Rattle.bip_host.specs.Classes.{step_of_try, tries_left};
ghost use Rattle.bip_ip.specs.Nodes.{CanBeAsked, node_of};

use crate::actors::{Actor, Step, Turn};
use crate::books::Entry;
use crate::counts::{Counts, Posted};
use crate::gates::Point;
use crate::messages::ToClass;
use crate::waiting::Outcome;
use bip_ip::{Answered, IpNode, Tried, WhyNot};
use bip_model::{ClassId, CompId, Grant, InterId, Notifies, Notify, Number, Offer, Reply, Request};
use bip_partition::Plan;
use bip_table::TableFault;
use std::alloc::{AllocError, Global};
use std::mem;

/// What the actor of a class wants.
#[derive(Drop)]
pub enum ClassAct {
    /// That this grant is appended to the book.
    Append(Grant),
    /// That the third layer is asked for this.
    Ask(Request),
    /// That its grant which waits for those with lower serials is looked for.
    Look,
    /// That the gate is passed.
    Pass(Point),
    /// That a notification is put for its component.
    Tell(Notify),
}

/// What the actor of a class hears of its act.
#[derive(Drop)]
pub enum ClassAnswer {
    /// The grant stands in the book, or can't be next there.
    Appended(Option<Entry>),
    /// What the table answers to the request.
    Decided(Result<Reserved, TableFault>),
    /// The request found a row busy, and comes back.
    Busy(Request),
    /// The request is granted with this serial, and its grant waits for those with lower ones.
    Waits(u64),
    /// What has become of the grant that waits.
    Looked(Outcome),
    /// The request is on its way to the station of its interaction, or lost.
    Handed(Posted),
    /// The gate is passed.
    Passed,
    /// The notification is put, or lost.
    Told(Posted),
}

/// What a table decides on a class's request.
#[derive(Drop)]
pub enum Reserved {
    /// It is granted with this serial, and the grant stands in the book.
    Granted(Entry, u64),
    /// It is refused, since this component's number isn't above the used one.
    Refused { comp: CompId, used: Number },
}

/// What a class's actor waits for.
#[derive(Drop)]
pub(crate) enum Stage {
    /// Nothing.
    Resting,
    /// That a local grant is appended, whose components are told this.
    Appending(Notifies),
    /// That the gate is passed before this is asked for.
    Asking(Request),
    /// What comes of the request with this number for this interaction.
    Asked(InterId, u64),
    /// What has become of the grant of the request with this number, which has this serial.
    Looking(u64, u64),
    /// That the gate is passed before this is told of the grant of the entry.
    Entered(Entry, Notifies),
    /// That the notification at this place is put, of those of the entry's grant.
    Telling(Entry, Notifies, usize),
}

/// What a class has to end before it tries anything new.
#[derive(Drop)]
pub(crate) enum Errand {
    Nothing,
    /// This is asked for again, since it found a row busy.
    Asks(Request),
    /// The grant of the request with this number, which has this serial, isn't in the book yet.
    Waits(u64, u64),
}

/// The actor of a class: it takes what components offer, tries its interactions in order of number,
/// one in each turn, beginning again after the last, and tells of grants. What it has to end goes
/// before a try (docs/HOST.md, "Actors").
#[derive(Drop)]
pub struct ClassActor<'p> {
    node: IpNode<'p>,
    class: ClassId,
    members: &'p [InterId],
    /// The place of the interaction that is tried next; past the last it is the first.
    next: usize,
    /// The greatest number that its third layer can have: offers with a greater one are dropped.
    most: Number,
    errand: Errand,
    stage: Stage,
    /// What its turn comes to so far, and whether an interaction was tried in it.
    turn: Turn,
    has_tried: bool,
    counts: Counts,
}

impl<'p> ClassActor<'p> {
    /// The actor of a class of a plan, whose node is new, and whose requests begin with number 1,
    /// over a third layer that can have numbers up to this one.
    pub fn new(
        alloc: Global,
        plan: &'p Plan,
        class: ClassId,
        most: Number,
    ) -> Result<ClassActor<'p>, AllocError>
        requires { class.0 < length plan.now.classes.members }
        ensures { IfOk result (IsFirstClassActor plan.now class.0 most) }
    {
        Ok(ClassActor {
            node: IpNode::new(alloc, plan, class, 0, 1)?,
            class,
            members: plan.classes().members(class),
            next: 0,
            most,
            errand: Errand::Nothing,
            stage: Stage::Resting,
            turn: Turn::Nothing,
            has_tried: false,
            counts: Counts::default(),
        })
    }

    /// Goes on with what is to be ended; where that is nothing, it tries the next interaction.
    fn do_next(&mut self) -> Step<ClassAct>
        ensures next { IsNextDone self.old result self.new }
        ensures awaits { IsAwaited (λ act. ClassAwaits self.new.class self.new.stage act) result }
        ensures left { left_of_class self.new ≤ 11 + rank_class self.old.stage }
    {
        match self.errand {
            Errand::Nothing => self.try_next(),
            _ => self.end_errand(),
        }
    }

    /// Goes on with what is to be ended: it asks for the same again, or looks for its grant. That
    /// is large, and rare.
    #[inline(never)]
    fn end_errand(&mut self) -> Step<ClassAct>
        ensures errand { IsErrandDone self.old.errand self.old result self.new }
        ensures awaits { IsAwaited (λ act. ClassAwaits self.new.class self.new.stage act) result }
        ensures left { left_of_class self.new ≤ 11 + rank_class self.old.stage }
    {
        match mem::replace(&mut self.errand, Errand::Nothing) {
            Errand::Nothing => self.try_next(),
            Errand::Asks(request) => {
                self.has_tried = true;
                self.stage = Stage::Asked(request.inter, request.request);
                Step::Act(ClassAct::Ask(request))
            }
            Errand::Waits(request, serial) => {
                self.has_tried = true;
                self.stage = Stage::Looking(request, serial);
                Step::Act(ClassAct::Look)
            }
        }
    }

    /// Tries the next interaction, in order of number.
    fn try_next(&mut self) -> Step<ClassAct>
        ensures trial { IsTrial self.old result self.new }
        ensures awaits { IsAwaited (λ act. ClassAwaits self.new.class self.new.stage act) result }
        ensures left { left_of_class self.new ≤ 11 + rank_class self.old.stage }
    {
        self.has_tried = true;
        let place = self.place_next();
        match self.members.get(place) {
            Some(inter) => {
                self.next = place + 1;
                self.try_one(*inter)
            }
            None => Step::Over(self.turn),
        }
    }

    /// The place of the interaction that is tried next: the first one after the last.
    fn place_next(&self) -> usize
        ensures { result ≡ place_next self.now }
    {
        if self.next < self.members.len() {
            self.next
        } else {
            0
        }
    }

    /// Tries an interaction, and wants what its answer asks for.
    fn try_one(&mut self, inter: InterId) -> Step<ClassAct>
        ensures trial { IsTrialOf inter self.old result self.new }
        ensures awaits { IsAwaited (λ act. ClassAwaits self.new.class self.new.stage act) result }
        ensures left { left_of_class self.new
            ≤ 11 + rank_class self.old.stage + tries_left self.old.has_tried }
    {
        match self.node.why_not(inter) {
            Some(WhyNot::Foreign) => Step::Over(self.turn),
            Some(WhyNot::Pending(_)) => Step::Over(self.turn),
            Some(WhyNot::Not(_)) => Step::Over(self.turn),
            None => self.ask(inter),
        }
    }

    /// Asks for an interaction that can be asked for. What that makes is large, and rare.
    #[inline(never)]
    fn ask(&mut self, inter: InterId) -> Step<ClassAct>
        requires { CanBeAsked (node_of self.old.node) inter.0 }
        ensures trial { IsTrialOf inter self.old result self.new }
        ensures awaits { IsAwaited (λ act. ClassAwaits self.new.class self.new.stage act) result }
        ensures left { left_of_class self.new
            ≤ 11 + rank_class self.old.stage + tries_left self.old.has_tried }
    {
        let did = self.node.ask(inter);
        self.on_tried(did)
    }

    /// What a try's answer asks for.
    fn on_tried(&mut self, did: Tried) -> Step<ClassAct>
        ensures step { result ≡ step_of_try self.old did }
        ensures actor { self.new ≡ record self.old { stage = stage_of_try did self.old.stage } }
        ensures awaits { IsAwaited (λ act. ClassAwaits self.new.class self.new.stage act) result }
        ensures left { left_of_class self.new
            ≤ 11 + rank_class self.old.stage + tries_left self.old.has_tried }
    {
        match did {
            Tried::Local(grant, notifies) => {
                self.stage = Stage::Appending(notifies);
                Step::Act(ClassAct::Append(grant))
            }
            Tried::Sent(request) => {
                let point = Point::Asked(self.class, request.inter);
                self.stage = Stage::Asking(request);
                Step::Act(ClassAct::Pass(point))
            }
            Tried::Ended => Step::Over(Turn::Ends),
            Tried::Foreign => Step::Over(self.turn),
            Tried::Pending(_) => Step::Over(self.turn),
            Tried::Not(_) => Step::Over(self.turn),
        }
    }

    /// What is left of a turn: what is to be ended, or a try, where there was neither yet.
    fn rest(&mut self) -> Step<ClassAct>
        ensures rest { IsRest self.old result self.new }
        ensures awaits { IsAwaited (λ act. ClassAwaits self.new.class self.new.stage act) result }
        ensures left { left_of_class self.new
            ≤ rank_class self.old.stage + tries_left self.old.has_tried }
    {
        if self.has_tried {
            return Step::Over(Turn::Done);
        }
        self.do_next()
    }

    /// Hears a message. What it may want is large, which a turn without one doesn't pay for.
    #[inline(never)]
    fn hear_message(&mut self, message: ToClass) -> Step<ClassAct>
        ensures step { ClassHearsOf message self.old result self.new }
        ensures awaits { IsAwaited (λ act. ClassAwaits self.new.class self.new.stage act) result }
    {
        match message {
            ToClass::Offer(offer) => {
                self.hear_offer(offer);
                self.do_next()
            }
            ToClass::Granted {
                entry,
                request,
                serial,
            } => self.hear_grant(entry, request, serial),
            ToClass::Refused(reply) => self.hear_refusal(reply),
        }
    }

    /// Hears an offer, which is dropped where the third layer can't have its number.
    fn hear_offer(&mut self, offer: Offer)
        ensures { IsOfferHeard offer self.old self.new }
    {
        if offer.number <= self.most {
            let _got = self.node.on_offer(offer);
        }
    }

    /// Hears that the request with this number is granted with this serial.
    fn hear_grant(&mut self, entry: Entry, request: u64, serial: u64) -> Step<ClassAct>
        ensures grant { IsOnGrant entry request serial self.old result self.new }
        ensures awaits { IsAwaited (λ act. ClassAwaits self.new.class self.new.stage act) result }
        ensures left { left_of_class self.new
            ≤ 9 + rank_class self.old.stage + tries_left self.old.has_tried }
    {
        let reply = Reply::Granted {
            class: self.class,
            request,
            inter: entry.inter(),
            serial,
        };
        match self.node.on_reply(&reply) {
            Answered::Told(notifies) => self.enter(entry, notifies),
            Answered::Dropped => self.rest(),
            Answered::Stale => self.rest(),
        }
    }

    /// Hears that a request is refused.
    fn hear_refusal(&mut self, reply: Reply) -> Step<ClassAct>
        ensures refusal { IsOnRefusal reply self.old result self.new }
        ensures awaits { IsAwaited (λ act. ClassAwaits self.new.class self.new.stage act) result }
        ensures left { left_of_class self.new
            ≤ 9 + rank_class self.old.stage + tries_left self.old.has_tried }
    {
        let _did = self.node.on_reply(&reply);
        self.counts.refuse();
        self.rest()
    }

    /// Hears what the table answers to the request with this number.
    fn hear_decision(
        &mut self,
        inter: InterId,
        request: u64,
        decided: Result<Reserved, TableFault>,
    ) -> Step<ClassAct>
        ensures decision { IsOnDecision inter request decided self.old result self.new }
        ensures awaits { IsAwaited (λ act. ClassAwaits self.new.class self.new.stage act) result }
        ensures left { left_of_class self.new
            ≤ 9 + rank_class self.old.stage + tries_left self.old.has_tried }
    {
        match decided {
            Ok(Reserved::Granted(entry, serial)) => self.hear_grant(entry, request, serial),
            Ok(Reserved::Refused { comp, used }) => self.hear_refusal(Reply::Refused {
                class: self.class,
                request,
                inter,
                comp,
                used,
            }),
            Err(TableFault::Memory) => {
                self.counts.lack();
                Step::Over(Turn::Ends)
            }
            Err(_) => Step::Over(Turn::Ends),
        }
    }

    /// Hears what has become of the grant of the request with this number, which has this serial.
    fn hear_outcome(&mut self, request: u64, serial: u64, outcome: Outcome) -> Step<ClassAct>
        ensures outcome { IsOnOutcome request serial outcome self.old result self.new }
        ensures awaits { IsAwaited (λ act. ClassAwaits self.new.class self.new.stage act) result }
        ensures left { left_of_class self.new
            ≤ 9 + rank_class self.old.stage + tries_left self.old.has_tried }
    {
        match outcome {
            Outcome::Entered(entry) => self.hear_grant(entry, request, serial),
            Outcome::Waits => {
                self.errand = Errand::Waits(request, serial);
                Step::Over(self.turn)
            }
            Outcome::Refused => Step::Over(Turn::Ends),
        }
    }

    /// Wants to pass the gate before a grant is told that stands in the book. It ends where the
    /// notifications are those of another one.
    fn enter(&mut self, entry: Entry, notifies: Notifies) -> Step<ClassAct>
        ensures entry { IsOnEntry entry notifies self.old result self.new }
        ensures awaits { IsAwaited (λ act. ClassAwaits self.new.class self.new.stage act) result }
        ensures left { left_of_class self.new
            ≤ 9 + rank_class self.old.stage + tries_left self.old.has_tried }
    {
        if !entry.can_tell(&notifies) {
            return Step::Over(Turn::Ends);
        }
        let point = Point::Told(self.class, entry.inter());
        self.turn = Turn::Done;
        self.stage = Stage::Entered(entry, notifies);
        Step::Act(ClassAct::Pass(point))
    }

    /// Wants that the notification at this place is put, of those of the entry's grant.
    fn tell(&mut self, entry: Entry, notifies: Notifies, place: usize) -> Step<ClassAct>
        ensures told { IsOnTold entry notifies place self.old result self.new }
        ensures awaits { IsAwaited (λ act. ClassAwaits self.new.class self.new.stage act) result }
        ensures left { left_of_class self.new ≤ length notifies - place
            + rank_class self.old.stage + tries_left self.old.has_tried }
    {
        match notifies.as_slice().get(place).copied() {
            Some(notify) => {
                self.stage = Stage::Telling(entry, notifies, place);
                Step::Act(ClassAct::Tell(notify))
            }
            None => self.rest(),
        }
    }
}

impl<'p> Actor for ClassActor<'p> {
    ghost use Rattle.bip_host.specs.Actors.{IsAwaited};
    ghost use Rattle.bip_host.specs.Classes.{ClassAwaits, ClassFits, ClassGoesOn, ClassHears};
    ghost use Rattle.bip_host.specs.Classes.{ClassStarts, left_of_class};

    type Heard = ToClass;

    type Act = ClassAct;

    type Answer = ClassAnswer;

    ghost fits = { ClassFits };

    ghost awaits = { λ a act. ClassAwaits a.class a.stage act };

    ghost left = { left_of_class };

    ghost counted = { λ a. a.counts };

    ghost starts = { ClassStarts };

    ghost hears = { ClassHears };

    ghost goes_on = { ClassGoesOn };

    fn start(&mut self) -> Step<ClassAct> {
        Step::Over(Turn::Nothing)
    }

    /// Tries the next interaction, where that comes to nothing and nothing is to be ended.
    fn idle(&mut self) -> Option<Turn> {
        match self.errand {
            Errand::Nothing => {}
            _ => return None,
        }
        let place = self.place_next();
        if let Some(inter) = self.members.get(place) {
            match self.node.why_not(*inter) {
                Some(WhyNot::Foreign) => {}
                Some(WhyNot::Pending(_)) => {}
                Some(WhyNot::Not(_)) => {}
                None => return None,
            }
            self.next = place + 1;
        }
        self.turn = Turn::Nothing;
        self.has_tried = true;
        Some(Turn::Nothing)
    }

    /// Takes a message, and goes on with what is to be ended, or tries the next interaction: behind
    /// a grant once that is told.
    fn hear(&mut self, heard: Option<ToClass>) -> Step<ClassAct>
        ensures step { ClassHears self.old heard result self.new }
        ensures awaits { IsAwaited (λ act. ClassAwaits self.new.class self.new.stage act) result }
    {
        self.has_tried = false;
        match heard {
            None => {
                self.turn = Turn::Nothing;
                self.do_next()
            }
            Some(message) => {
                self.turn = Turn::Done;
                self.hear_message(message)
            }
        }
    }

    fn go_on(&mut self, answer: ClassAnswer) -> Step<ClassAct> {
        match (mem::replace(&mut self.stage, Stage::Resting), answer) {
            (Stage::Appending(notifies), ClassAnswer::Appended(Some(entry))) => {
                self.enter(entry, notifies)
            }
            (Stage::Appending(_notifies), ClassAnswer::Appended(None)) => Step::Over(Turn::Ends),
            (Stage::Asking(request), ClassAnswer::Passed) => {
                self.stage = Stage::Asked(request.inter, request.request);
                Step::Act(ClassAct::Ask(request))
            }
            (Stage::Asked(inter, request), ClassAnswer::Decided(decided)) => {
                self.hear_decision(inter, request, decided)
            }
            (Stage::Asked(..), ClassAnswer::Handed(posted)) => {
                self.counts.post(posted);
                Step::Over(Turn::Done)
            }
            (Stage::Asked(..), ClassAnswer::Busy(request)) => {
                self.counts.find_busy();
                self.errand = Errand::Asks(request);
                Step::Over(self.turn)
            }
            (Stage::Asked(_, request), ClassAnswer::Waits(serial)) => {
                self.errand = Errand::Waits(request, serial);
                Step::Over(Turn::Done)
            }
            (Stage::Looking(request, serial), ClassAnswer::Looked(outcome)) => {
                self.hear_outcome(request, serial, outcome)
            }
            (Stage::Entered(entry, notifies), ClassAnswer::Passed) => {
                self.counts.tell();
                self.tell(entry, notifies, 0)
            }
            (Stage::Telling(entry, notifies, place), ClassAnswer::Told(posted)) => {
                self.counts.post(posted);
                self.tell(entry, notifies, place + 1)
            }
            _ => unreachable!(),
        }
    }

    fn counts(&self) -> Counts {
        self.counts
    }

    fn has_open_request(&self) -> bool {
        self.members.iter().any(|inter| {
            matches!(self.node.why_not(*inter), Some(WhyNot::Pending(_)))
        })
    }
}
