//! The third layer, as the hands of a class's actor have it.
ghost use Rattle.std.specs.Prelude.{◌≡◌, IfNone, IfOk, IfSome, Some, length, slice_get};
ghost use Rattle.bip_host.specs.Classes.{ClassFits, IsDecidedHere};
ghost use Rattle.bip_host.specs.Layers.{IsAskedByWords, IsAskedFor, IsLaidAnswer, IsLayerOf};
ghost use Rattle.bip_host.specs.Layers.{IsSentToStation, IsSought, NoneDecides, drawn_with};
ghost use Rattle.bip_host.specs.Tables.{form_of_layers, most_of};
ghost use Rattle.bip_host.specs.declared.classes.ClassAct.TheVariants.{Ask};

use crate::addressed::Addressed;
use crate::classes::{ClassAnswer, Reserved};
use crate::counts::Posted;
use crate::drawn::Drawn;
use crate::ends::Outlets;
use crate::keepers::BookKeeper;
use crate::messages::ToStation;
use crate::seats::{Draw, MOST_IN_WORDS, WordSeat};
use crate::starting::decided_at;
use crate::waiting::Outcome;
use bip_model::{ClassId, InterId, Number, Request};
use bip_partition::Plan;
use bip_table::{Decision, Pass, TableFault, TableLock};
use std::alloc::{AllocError, Global};
use std::sync::Wait;
use std::sync::ledger::Ledger;

/// Of whom a class asks for its reserved interactions.
#[derive(Drop)]
pub(crate) enum ThirdLayer<'h, 'p, L: Ledger> {
    /// Of the locked table, by the class's pass.
    Table(TableDesk<'h, L>),
    /// Of the word table, by the class's seat.
    Words(WordDesk<'h>),
    /// Of the station of each interaction.
    Stations(StationDesk<'h, 'p>),
}

/// An outlet to the station of each reserved interaction of the class, by station; and which
/// interaction each station of the plan decides for.
#[derive(Drop)]
pub(crate) struct StationDesk<'h, 'p> {
    stations: &'p [InterId],
    outlets: Addressed<'h, ToStation>,
}

impl<'h, 'p> StationDesk<'h, 'p> {
    /// Sends a request to the station of its interaction.
    fn send<R: Wait>(&mut self, rt: &R, request: Request) -> Posted
        ensures sent { IsSentToStation request self.old.stations.now
            self.old.outlets.outlets.items result self.new.outlets.outlets.items }
        ensures stations { self.new.stations.now ≡ self.old.stations.now }
    {
        match self.station_of(request.inter) {
            Some(number) => self.outlets.post(rt, number, ToStation::Asked(request)),
            None => Posted::Lost,
        }
    }

    /// The number of the station of an interaction, if it has one.
    fn station_of(&self, inter: InterId) -> Option<usize>
        ensures some { IfSome result (λ k. slice_get self.now.stations.now k ≡ Some inter) }
        ensures none { IfNone result (NoneDecides inter self.now.stations.now
            (length self.now.stations.now)) }
    {
        for number in 0..self.stations.len() {
            if self.stations[number] == inter {
                return Some(number);
            }
        }
        None
    }
}

impl<'h, 'p, L: Ledger> ThirdLayer<'h, 'p, L> {
    /// Asks for an interaction: the locked table, which decides at once, and whose grant the keeper
    /// appends to the book; the word table, whose grant is laid beside the book; or the
    /// interaction's station.
    pub(crate) fn ask<R: Wait>(
        &mut self,
        rt: &R,
        request: Request,
        keeper: &mut BookKeeper<'_, '_>,
    ) -> ClassAnswer
        ensures fits { ClassFits (Ask request) result }
        ensures asked { IsAskedFor request self.old result self.new }
    {
        match self {
            ThirdLayer::Table(desk) => ClassAnswer::Decided(desk.ask(rt, request, keeper)),
            ThirdLayer::Words(desk) => desk.ask(rt, request, keeper),
            ThirdLayer::Stations(desk) => ClassAnswer::Handed(desk.send(rt, request)),
        }
    }

    /// Says what has become of the grant that the class laid beside the book: with words alone one
    /// can.
    pub(crate) fn look<R: Wait>(&self, rt: &R, keeper: &BookKeeper<'_, '_>) -> Outcome
        ensures { IsSought self.now result }
    {
        match self {
            ThirdLayer::Words(desk) => keeper.look(rt, desk.place),
            ThirdLayer::Table(_) => Outcome::Refused,
            ThirdLayer::Stations(_) => Outcome::Refused,
        }
    }

    /// How many grants were drawn with it from a word table.
    pub(crate) fn count_drawn(&self) -> u64
        ensures { result ≡ drawn_with self.now }
    {
        match self {
            ThirdLayer::Words(desk) => desk.seat.count_drawn(),
            ThirdLayer::Table(_) => 0,
            ThirdLayer::Stations(_) => 0,
        }
    }
}

/// A class's seat of the word table, and its place beside the book.
#[derive(Drop)]
pub(crate) struct WordDesk<'h> {
    pub(crate) seat: WordSeat<'h>,
    pub(crate) place: usize,
}

impl<'h> WordDesk<'h> {
    /// Tries once to draw the request's grant, and lays it beside the book.
    fn ask<R: Wait>(&mut self, rt: &R, request: Request, keeper: &BookKeeper<'_, '_>) -> ClassAnswer
        ensures fits { ClassFits (Ask request) result }
        ensures asked { IsAskedByWords request self.old result self.new }
    {
        match self.seat.draw(request) {
            Draw::Granted(drawn) => self.enter(rt, drawn, keeper),
            Draw::Used { comp, used } => ClassAnswer::Decided(Ok(Reserved::Refused { comp, used })),
            Draw::Busy(back) => ClassAnswer::Busy(back),
            Draw::Unknown(comp) => ClassAnswer::Decided(Err(TableFault::UnknownRow(comp))),
            Draw::TooGreat => ClassAnswer::Decided(Err(TableFault::Ended)),
        }
    }

    /// Lays a grant beside the book, and says what has become of it.
    fn enter<R: Wait>(&self, rt: &R, drawn: Drawn, keeper: &BookKeeper<'_, '_>) -> ClassAnswer
        ensures { IsLaidAnswer drawn.serial drawn.grant result }
    {
        let serial = drawn.serial();
        match keeper.enter(rt, self.place, drawn) {
            Ok(Outcome::Entered(entry)) => {
                ClassAnswer::Decided(Ok(Reserved::Granted(entry, serial)))
            }
            Ok(Outcome::Waits) => ClassAnswer::Waits(serial),
            Ok(Outcome::Refused) => ClassAnswer::Decided(Err(TableFault::NotKept)),
            Err(_) => ClassAnswer::Decided(Err(TableFault::NotKept)),
        }
    }
}

/// The locked table, with the class's pass.
#[derive(Drop)]
pub(crate) struct TableDesk<'h, L: Ledger> {
    pub(crate) lock: &'h TableLock<L>,
    pub(crate) pass: Pass<L>,
}

/// What the third layers of all classes are made of.
#[derive(Drop)]
pub(crate) enum Layers<'h, 'p, L: Ledger> {
    /// The locked table, and the passes that no class has yet.
    Table(&'h TableLock<L>, Vec<Pass<L>>),
    /// The seat of the word table of which those of the classes are split off.
    Words(WordSeat<'h>),
    /// The stations.
    Stations(StationLayers<'h, 'p>),
}

/// Which interaction each station of a plan decides for, and the outlets of all stations that
/// nobody has yet.
#[derive(Drop)]
pub(crate) struct StationLayers<'h, 'p> {
    pub(crate) stations: &'p [InterId],
    pub(crate) outlets: Outlets<'h, ToStation>,
}

impl<'h, 'p> StationLayers<'h, 'p> {
    /// What a class asks its stations by.
    fn desk(
        &mut self,
        alloc: Global,
        plan: &Plan,
        class: ClassId,
    ) -> Result<StationDesk<'h, 'p>, AllocError>
        ensures desk { IfOk result (λ desk. desk.stations.now ≡ self.old.stations.now) }
        ensures stations { self.new.stations.now ≡ self.old.stations.now }
    {
        let outlets = station_outlets(alloc, plan, class, &mut self.outlets)?;
        Ok(StationDesk {
            stations: self.stations,
            outlets,
        })
    }
}

impl<'h, 'p, L: Ledger> Layers<'h, 'p, L> {
    /// The greatest number that they can have.
    pub(crate) fn most(&self) -> Number
        ensures { result ≡ most_of (form_of_layers self.now) }
    {
        match self {
            Layers::Words(_) => MOST_IN_WORDS,
            _ => Number::MAX,
        }
    }

    /// The third layer of a class, if there is what it takes.
    pub(crate) fn of_class(
        &mut self,
        alloc: Global,
        plan: &Plan,
        class: ClassId,
    ) -> Result<Option<ThirdLayer<'h, 'p, L>>, AllocError>
        ensures layer { IfOk result (λ made. IfSome made (IsLayerOf self.old class.0)) }
        ensures form { form_of_layers self.new ≡ form_of_layers self.old }
    {
        match self {
            Layers::Words(seat) => Ok(Some(ThirdLayer::Words(WordDesk {
                seat: seat.split(),
                place: class.0 as usize,
            }))),
            Layers::Table(lock, passes) => match passes.pop() {
                Some(pass) => Ok(Some(ThirdLayer::Table(TableDesk { lock, pass }))),
                None => Ok(None),
            },
            Layers::Stations(layers) => {
                Ok(Some(ThirdLayer::Stations(layers.desk(alloc, plan, class)?)))
            }
        }
    }
}

/// An outlet to the station of each reserved interaction of a class, by station.
fn station_outlets<'h>(
    alloc: Global,
    plan: &Plan,
    class: ClassId,
    outlets: &mut Outlets<'h, ToStation>,
) -> Result<Addressed<'h, ToStation>, AllocError>
    ensures { IfOk result (λ own. own.inboxes.now ≡ outlets.old.inboxes.now) }
{
    let mut own = Addressed::new(alloc, outlets.inboxes());
    for number in 0..plan.stations().len() {
        let Some((_inter, of)) = decided_at(plan, number) else {
            return Ok(own);
        };
        if of == class {
            if let Some(outlet) = outlets.take(number) {
                own.add(number, outlet)?;
            }
        }
    }
    Ok(own)
}

impl<'h, L: Ledger> TableDesk<'h, L> {
    /// Asks the locked table, whose grant the keeper appends to the book, and gives its answer; or
    /// why there is none.
    fn ask<R: Wait>(
        &mut self,
        rt: &R,
        request: Request,
        keeper: &mut BookKeeper<'_, '_>,
    ) -> Result<Reserved, TableFault>
        ensures { IfOk result (IsDecidedHere request) }
    {
        let TableDesk { lock, pass } = self;
        match lock.reserve_kept(rt, pass, request, keeper)? {
            Decision::Granted(serial) => match keeper.entry.take() {
                Some(entry) => Ok(Reserved::Granted(entry, serial)),
                None => unreachable!(),
            },
            Decision::Refused { comp, used } => Ok(Reserved::Refused { comp, used }),
        }
    }
}
