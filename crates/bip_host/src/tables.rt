//! The table that all classes of a host ask, where one decides.
ghost use Rattle.std.specs.Prelude.{◌≡◌, ◌<◌, IfOk};
ghost use Rattle.bip_host.specs.Seats.{CanHave};
ghost use Rattle.bip_host.specs.Tables.{IsAccessTo, IsOpenedFor, form_asked, form_of_layers};
ghost use Rattle.bip_host.specs.Tables.{form_of_table};

use crate::hosts::{Kind, Tables};
use crate::layers::{Layers, StationLayers};
use crate::seats::{WordSeat, open_words};
use bip_bank::first_table;
use bip_partition::Plan;
use bip_table::{Pass, TableLock};
use bip_words::{Seat, WordTable};
use std::alloc::{AllocError, Global};
use std::sync::ledger::{Blank, Ledger};

/// The table that all classes of a host ask.
#[derive(Drop)]
pub(crate) enum CommonTable<L: Ledger> {
    /// There is none: stations decide.
    Absent,
    Locked(TableLock<L>),
    Words(WordTable),
}

/// By what classes ask their table, which no class has yet.
#[derive(Drop)]
pub(crate) enum Access<L: Ledger> {
    /// There is no table.
    Absent,
    /// A pass for each class.
    Passes(Vec<Pass<L>>),
    /// The seat of which those of the classes are split off.
    Seat(Seat),
}

/// The table of a plan, shared as is asked, with what its classes ask it by; none where stations
/// decide.
pub(crate) fn open_table<L: Ledger>(
    alloc: Global,
    plan: &Plan,
    kind: Kind,
    tables: Tables,
    blank: Blank,
    passes: usize,
) -> Result<(CommonTable<L>, Access<L>), AllocError>
    requires tables { CanHave plan.now kind tables }
    requires name { blank.name ≡ L.name }
    requires parts { (blank.parts ≡ L.parts) × (blank.parts ≡ passes) }
    requires some { 0 < passes }
    ensures access { IfOk result (λ opened. IsAccessTo opened.0 opened.1) }
    ensures form { IfOk result (λ opened. form_of_table opened.0 ≡ form_asked kind tables) }
    ensures opening { IfOk result (λ opened. IsOpenedFor plan.now opened.0) }
{
    match (kind, tables) {
        (Kind::Central, Tables::Locked) => {
            let table = first_table(alloc, plan, 0)?;
            let (lock, passes) = TableLock::<L>::new(alloc, blank, table, passes)?;
            Ok((CommonTable::Locked(lock), Access::Passes(passes)))
        }
        (Kind::Central, Tables::Words) => {
            let (table, seat) = open_words(alloc, plan)?;
            Ok((CommonTable::Words(table), Access::Seat(seat)))
        }
        (_, Tables::Locked) => Ok((CommonTable::Absent, Access::Absent)),
        (_, Tables::Words) => unreachable!(),
    }
}

/// What the third layers of classes are made of, over this table or, where there is none, these
/// stations.
pub(crate) fn layers_over<'h, 'p, L: Ledger>(
    table: &'h CommonTable<L>,
    access: Access<L>,
    stations: StationLayers<'h, 'p>,
) -> Layers<'h, 'p, L>
    requires { IsAccessTo table.now access }
    ensures { form_of_layers result ≡ form_of_table table.now }
{
    match (table, access) {
        (CommonTable::Absent, Access::Absent) => Layers::Stations(stations),
        (CommonTable::Locked(lock), Access::Passes(passes)) => Layers::Table(lock, passes),
        (CommonTable::Words(words), Access::Seat(seat)) => {
            Layers::Words(WordSeat::of(words, seat))
        }
        _ => unreachable!(),
    }
}
