//! Hosts: a plan's nodes as threads, round one locked book, with one table, a ring or forks.
ghost use Rattle.std.specs.Prelude.{◌≡◌, ◌==◌, ◌+◌, ◌<◌, ◌≤◌, ◌^◌, All, IfErr, IfOk, length};
ghost use Rattle.std.specs.Prelude.{max};
ghost use Rattle.bip_host.specs.Mailboxes.{AreEndsOfEach};
ghost use Rattle.bip_host.specs.Nodes.{kind_of};
ghost use Rattle.bip_host.specs.Reports.{AreFiguresOf, AreTotalsOf, IsEndedBy, IsHostFault};
ghost use Rattle.bip_host.specs.Reports.{IsReportOf, IsThreadCount, IsWhyNone, ended_of, no_totals};
ghost use Rattle.bip_host.specs.Reports.{with_end};
ghost use Rattle.bip_host.specs.Seats.{CanHave};
ghost use Rattle.bip_host.specs.Starting.{HaveForm};
ghost use Rattle.bip_host.specs.Tables.{IsAccessTo, form_asked, form_of_table};
ghost use Rattle.bip_replay.specs.Runs.{IsModelRun};

use crate::actors::NodeEnd;
use crate::aims::{Aim, Watch};
use crate::books::{SharedBook, as_run};
use crate::faults::HostFault;
use crate::gates::Gate;
use crate::inboxes::Inbox;
use crate::joining::{join_all, part_all};
use crate::keepers::BookLock;
use crate::layers::StationLayers;
use crate::mailboxes::LooseEnds;
use crate::messages::{ToClass, ToStation};
use crate::nodes::Nodes;
use crate::rests::Strides;
use crate::starting::{
    Commons, class_mailboxes, component_mailboxes, start_classes, start_components,
};
use crate::starting_stations::{start_stations, station_mailboxes};
use crate::tables::{Access, CommonTable, layers_over, open_table};
use crate::waiting::WaitingBook;
use bip_model::{Grant, Notify};
use bip_partition::Plan;
use bip_replay::Book;
use std::alloc::{AllocError, Global};
use std::marker::Brand;
use std::sync::Wait;
use std::sync::ledger::{Blank, Ledger};
use std::thread;
use std::thread::{Promise, PromisedHandle, Threads};

/// Which form the third layer of a host has.
#[derive(Clone, Copy, Debug, PartialEq, Eq)]
pub enum Kind {
    /// One table, of which each class asks.
    Central,
    /// A token ring: a station for each reserved interaction, and one table, which goes round.
    Ring,
    /// Dining philosophers: a station for each reserved interaction, each with a table of its own;
    /// each two whose interactions are in conflict share a fork.
    Forks,
}

/// How the tables of a host are shared.
#[derive(Clone, Copy, Debug, PartialEq, Eq)]
pub enum Tables {
    /// Behind a lock; with stations, by what these hand on.
    Locked,
    /// In single words, without a lock: one table of at most 32 rows.
    Words,
}

/// How long a host runs (docs/HOST.md, "Turns").
#[derive(Clone, Copy, Debug, PartialEq, Eq)]
pub struct Limits {
    /// Each thread ends after so many turns, if it goes on so long.
    pub turns: u32,
    /// Where that is a number, threads end before: once the book has so many grants, or more, since
    /// threads race; or all are quiet.
    pub grants: Option<u64>,
}

/// Why a host ended, where the first that applies is told.
#[derive(Clone, Copy, Debug, PartialEq, Eq)]
pub enum Ended {
    /// Its book has as many grants as were asked for, or more.
    ByGrants,
    /// No number of grants was asked for, or a thread made all its turns.
    ByTurns,
    /// Its threads were quiet, all at once.
    ByQuiet,
}

/// What a host did: the grants of its book, in its order; of how many of them a class went on to
/// send the notifications; and how many messages were lost for want of memory.
#[derive(Drop)]
pub struct HostReport {
    pub grants: Vec<Grant>,
    pub told: u64,
    pub lost: u64,
}

/// How much a host did it with: which kind of third layer it had, and how its tables were shared.
#[derive(Clone, Copy, Debug, PartialEq, Eq)]
pub struct HostFigures {
    pub kind: Kind,
    pub tables: Tables,
    /// Why it ended.
    pub ended: Ended,
    /// How many threads ran, how many turns they made together, and how many the one that made
    /// most.
    pub threads: u64,
    pub turns: u64,
    pub most_turns: u64,
    /// How many tokens and forks stations sent, and how many request tokens; none with one table.
    pub passes: u64,
    pub asks: u64,
    /// How many requests classes heard to be refused, and how often one found a row busy.
    pub refusals: u64,
    pub busy: u64,
    /// How many grants stand in the lists of a word table's seats, and how many of its grants the
    /// book took: as many, unless a class ended amid one.
    pub drawn: u64,
    pub entered: u64,
}

/// What all threads did, and whether one couldn't be started, or wanted memory.
#[derive(Clone, Copy)]
pub(crate) struct Totals {
    figures: HostFigures,
    told: u64,
    lost: u64,
    wanted_memory: bool,
    is_short: bool,
}

impl Totals {
    /// Nothing so far, of a host of a kind whose tables are shared so.
    fn of(kind: Kind, tables: Tables) -> Totals
        ensures { result ≡ no_totals kind tables }
    {
        let figures = HostFigures {
            kind,
            tables,
            ended: Ended::ByTurns,
            threads: 0,
            turns: 0,
            most_turns: 0,
            passes: 0,
            asks: 0,
            refusals: 0,
            busy: 0,
            drawn: 0,
            entered: 0,
        };
        Totals {
            figures,
            told: 0,
            lost: 0,
            wanted_memory: false,
            is_short: false,
        }
    }

    /// Adds what a thread left.
    fn add(&mut self, end: NodeEnd)
        requires { self.old.figures.threads + 1 < 2 ^ 64 }
        ensures { self.new ≡ with_end end self.old }
    {
        self.figures.threads += 1;
        self.figures.turns = self.figures.turns.saturating_add(end.turns);
        self.figures.most_turns = self.figures.most_turns.max(end.turns);
        self.figures.passes = self.figures.passes.saturating_add(end.counts.passes);
        self.figures.asks = self.figures.asks.saturating_add(end.counts.asks);
        self.figures.refusals = self.figures.refusals.saturating_add(end.counts.refusals);
        self.figures.busy = self.figures.busy.saturating_add(end.counts.busy);
        self.figures.drawn = self.figures.drawn.saturating_add(end.drawn);
        self.told = self.told.saturating_add(end.counts.told);
        self.lost = self.lost.saturating_add(end.counts.lost);
        self.wanted_memory = self.wanted_memory || end.counts.wanted_memory;
    }
}

/// Runs the nodes of a plan, each in a thread of its own that ends after so many turns, or once
/// there are enough grants: one of each component, one of each class, and with a ring or forks one
/// of each station; row words want one table of at most 32 rows. **The grants of the
/// report are a run of the plan's model, with exact numbers above 0.** A grant that were none is
/// refused by the book before anybody is told of it, and the fault is NotARun then; else Memory,
/// where it was wanted; else Thread, where one couldn't be started. Each thread that was started is
/// joined (docs/HOST.md).
pub fn run_host<G: Gate + Sync, R: Threads + Wait + Sync>(
    rt: &R,
    alloc: Global,
    plan: &Plan,
    kind: Kind,
    tables: Tables,
    limits: Limits,
    gate: &G,
) -> Result<HostReport, HostFault>
    requires { CanHave plan.now kind tables }
    ensures run { IfOk result (λ report. IsModelRun plan.now.model 0 report.grants.items) }
    ensures fault { IfErr result IsHostFault }
{
    let (report, _figures) = run_host_counted(rt, alloc, plan, kind, tables, limits, gate)?;
    Ok(report)
}

/// Runs a host as `run_host` does, counts its threads and their turns beside, and says why it
/// ended, which is worked out after the joins.
pub fn run_host_counted<G: Gate + Sync, R: Threads + Wait + Sync>(
    rt: &R,
    alloc: Global,
    plan: &Plan,
    kind: Kind,
    tables: Tables,
    limits: Limits,
    gate: &G,
) -> Result<(HostReport, HostFigures), HostFault>
    requires { CanHave plan.now kind tables }
    ensures run { IfOk result (λ done. IsModelRun plan.now.model 0 done.0.grants.items) }
    ensures figures { IfOk result (λ done. AreFiguresOf plan.now kind tables limits.turns done.1) }
    ensures ended { IfOk result (λ done. IsEndedBy limits done.0.grants.items done.1) }
    ensures fault { IfErr result IsHostFault }
{
    let asked = Asked {
        kind,
        tables,
        threads: count_threads(plan, kind),
        limits,
    };
    let passes = plan.classes().len().max(1);
    let blank = Blank::new(passes as u64);
    run_kind::<Brand, G, R>(rt, alloc, plan, asked, blank, gate)
}

/// Runs a host as is asked. The ledger has a part for the pass of each class.
fn run_kind<L: Ledger + Send + Sync, G: Gate + Sync, R: Threads + Wait + Sync>(
    rt: &R,
    alloc: Global,
    plan: &Plan,
    asked: Asked,
    blank: Blank,
    gate: &G,
) -> Result<(HostReport, HostFigures), HostFault>
    requires tables { CanHave plan.now asked.kind asked.tables }
    requires threads { IsThreadCount plan.now asked.kind asked.threads }
    requires name { blank.name ≡ L.name }
    requires parts { (blank.parts ≡ L.parts)
        × (blank.parts ≡ max 1 (length plan.now.classes.members)) }
    ensures run { IfOk result (λ done. IsModelRun plan.now.model 0 done.0.grants.items) }
    ensures fault { IfErr result IsHostFault }
    ensures figures { IfOk result (λ done. AreFiguresOf plan.now asked.kind asked.tables
        asked.limits.turns done.1) }
    ensures ended { IfOk result (λ done. IsEndedBy asked.limits done.0.grants.items done.1) }
{
    let (commons, ends) = open_commons::<L>(alloc, plan, asked, blank)?;
    match run_nodes(rt, alloc, plan, asked, &commons, ends, gate) {
        Ok(totals) => {
            let (book, entered) = commons.into_book().close();
            report(alloc, plan, book, entered, totals, asked.limits)
        }
        Err(refused) => {
            // By calls: what is let go without takes the prover long (CONTRIBUTING, "Proving").
            drop(commons);
            Err(HostFault::from(refused))
        }
    }
}

/// Makes what the nodes of a host share, and the ends of its inboxes.
fn open_commons<L: Ledger>(
    alloc: Global,
    plan: &Plan,
    asked: Asked,
    blank: Blank,
) -> Result<(Commons<'_, L>, HostEnds<L>), AllocError>
    requires tables { CanHave plan.now asked.kind asked.tables }
    requires name { blank.name ≡ L.name }
    requires parts { (blank.parts ≡ L.parts)
        × (blank.parts ≡ max 1 (length plan.now.classes.members)) }
    ensures offers { IfOk result (λ made. AreEndsOfEach made.0.offers.items made.1.offers.items) }
    ensures notices { IfOk result (λ made.
        AreEndsOfEach made.0.notices.items made.1.notices.items) }
    ensures shares { IfOk result (λ made. AreEndsOfEach made.0.shares.items made.1.shares.items) }
    ensures access { IfOk result (λ made. IsAccessTo made.0.table made.1.access) }
    ensures form { IfOk result (λ made.
        form_of_table made.0.table ≡ form_asked asked.kind asked.tables) }
{
    let passes = plan.classes().len().max(1);
    let (table, access) = open_table::<L>(alloc, plan, asked.kind, asked.tables, blank, passes)?;
    let book = match open_book(alloc, plan, asked.limits) {
        Ok(book) => book,
        Err(refused) => {
            drop(table);
            drop(access);
            return Err(refused);
        }
    };
    match open_inboxes(alloc, plan, asked.kind) {
        Ok(inboxes) => {
            let (offers, offer_ends) = inboxes.offers;
            let (notices, notice_ends) = inboxes.notices;
            let (shares, share_ends) = inboxes.shares;
            let commons = Commons {
                table,
                book,
                offers,
                notices,
                shares,
                strides: Strides::new(),
            };
            let ends = HostEnds {
                offers: offer_ends,
                notices: notice_ends,
                shares: share_ends,
                access,
            };
            Ok((commons, ends))
        }
        Err(refused) => {
            drop(table);
            drop(access);
            drop(book);
            Err(refused)
        }
    }
}

/// The locked book without a grant, beside which each class has a place.
fn open_book(alloc: Global, plan: &Plan, limits: Limits) -> Result<BookLock<'_>, AllocError> {
    let book = SharedBook::of(Book::start(alloc, plan.model(), 0)?);
    let book = WaitingBook::of(alloc, book, plan.classes().len())?;
    Ok(BookLock::of(book, limits.grants.map(Aim::of)))
}

/// All inboxes of a host, apart from their ends.
#[derive(Drop)]
struct PartedInboxes {
    offers: (Vec<Inbox<ToClass>>, Vec<LooseEnds<ToClass>>),
    notices: (Vec<Inbox<Notify>>, Vec<LooseEnds<Notify>>),
    shares: (Vec<Inbox<ToStation>>, Vec<LooseEnds<ToStation>>),
}

/// Makes the inboxes of a host of a kind.
fn open_inboxes(alloc: Global, plan: &Plan, kind: Kind) -> Result<PartedInboxes, AllocError>
    ensures offers { IfOk result (λ all. AreEndsOfEach all.offers.0.items all.offers.1.items) }
    ensures notices { IfOk result (λ all. AreEndsOfEach all.notices.0.items all.notices.1.items) }
    ensures shares { IfOk result (λ all. AreEndsOfEach all.shares.0.items all.shares.1.items) }
{
    let offers = part_all(alloc, class_mailboxes(alloc, plan, kind != Kind::Central)?)?;
    let notices = part_all(alloc, component_mailboxes(alloc, plan)?)?;
    let shares = part_all(alloc, station_mailboxes(alloc, plan, kind)?)?;
    Ok(PartedInboxes {
        offers,
        notices,
        shares,
    })
}

/// Makes the nodes of a host, and runs them.
fn run_nodes<L: Ledger + Send + Sync, G: Gate + Sync, R: Threads + Wait + Sync>(
    rt: &R,
    alloc: Global,
    plan: &Plan,
    asked: Asked,
    commons: &Commons<'_, L>,
    ends: HostEnds<L>,
    gate: &G,
) -> Result<Totals, AllocError>
    requires offers { AreEndsOfEach commons.now.offers.items ends.offers.items }
    requires notices { AreEndsOfEach commons.now.notices.items ends.notices.items }
    requires shares { AreEndsOfEach commons.now.shares.items ends.shares.items }
    requires access { IsAccessTo commons.now.table ends.access }
    requires form { form_of_table commons.now.table ≡ form_asked asked.kind asked.tables }
    ensures { IfOk result (AreTotalsOf asked) }
{
    let nodes = start_nodes(alloc, plan, asked.kind, commons, ends, gate)?;
    let aim = commons.book.aim();
    run_threads(rt, alloc, nodes, asked, aim, &commons.strides, gate)
}

/// The ends of all inboxes of a host, which aren't handed out yet, and by what its table is asked.
#[derive(Drop)]
struct HostEnds<L: Ledger> {
    offers: Vec<LooseEnds<ToClass>>,
    notices: Vec<LooseEnds<Notify>>,
    shares: Vec<LooseEnds<ToStation>>,
    access: Access<L>,
}

/// Makes the nodes of a plan, with a third layer of a kind.
#[tactic(auto, using(crate::proofs::StartingLemmas::have_form))]
fn start_nodes<'h, 'p, 'm, 'g, L: Ledger, G: Gate>(
    alloc: Global,
    plan: &'p Plan,
    kind: Kind,
    commons: &'h Commons<'m, L>,
    ends: HostEnds<L>,
    gate: &'g G,
) -> Result<Nodes<'h, 'p, 'm, 'g, L, G>, AllocError>
    requires offers { AreEndsOfEach commons.now.offers.items ends.offers.items }
    requires notices { AreEndsOfEach commons.now.notices.items ends.notices.items }
    requires shares { AreEndsOfEach commons.now.shares.items ends.shares.items }
    requires access { IsAccessTo commons.now.table ends.access }
    ensures kind { IfOk result (λ nodes. kind_of nodes.stations ≡ kind) }
    ensures form { IfOk result (λ nodes.
        HaveForm (form_of_table commons.now.table) nodes.classes.items) }
{
    let (gathering, mut offers) = join_all(alloc, commons.offers.as_slice(), ends.offers)?;
    let (receiving, mut notices) = join_all(alloc, commons.notices.as_slice(), ends.notices)?;
    let (serving, mut shares) = join_all(alloc, commons.shares.as_slice(), ends.shares)?;
    let book = &commons.book;
    let components = start_components(alloc, plan, receiving, &mut offers)?;
    let stations = start_stations(alloc, plan, kind, book, serving, &mut shares, &mut offers)?;
    let desks = StationLayers {
        stations: plan.stations(),
        outlets: shares,
    };
    let layers = layers_over(&commons.table, ends.access, desks);
    let classes = start_classes(alloc, plan, book, gathering, &mut notices, layers, gate)?;
    Ok(Nodes {
        components,
        classes,
        stations,
    })
}

/// How many threads a host of a plan and a kind has: one for each component, for each class, and
/// for each station.
fn count_threads(plan: &Plan, kind: Kind) -> u128
    ensures { IsThreadCount plan.now kind result }
{
    let components = plan.model().components().len() as u128;
    let classes = plan.classes().len() as u128;
    let stations = match kind {
        Kind::Central => 0,
        _ => plan.stations().len() as u128,
    };
    components + classes + stations
}

/// What is asked of a host: its kind of third layer, how its tables are shared, how many threads,
/// and how long it runs.
#[derive(Clone, Copy)]
pub(crate) struct Asked {
    kind: Kind,
    tables: Tables,
    threads: u128,
    limits: Limits,
}

/// That a node makes no more turns than this.
#[derive(Drop)]
struct AtMost {
    turns: u32,
}

impl Promise<NodeEnd> for AtMost {
    ghost use Rattle.std.specs.Prelude.{◌≤◌};

    ghost kept_by = { λ promise end. end.turns ≤ promise.turns };
}

/// Starts a thread for each node, up to the first that can't be, and joins those that were started.
/// It falls short where these aren't as many as are asked for.
fn run_threads<'h, 'p, 'm, 'g, L: Ledger + Send + Sync, G: Gate + Sync, R: Threads + Wait + Sync>(
    rt: &R,
    alloc: Global,
    nodes: Nodes<'h, 'p, 'm, 'g, L, G>,
    asked: Asked,
    aim: Option<&'h Aim>,
    strides: &'h Strides,
    gate: &'g G,
) -> Result<Totals, AllocError>
    requires kind { kind_of nodes.stations ≡ asked.kind }
    requires form { HaveForm (form_asked asked.kind asked.tables) nodes.classes.items }
    ensures { IfOk result (AreTotalsOf asked) }
{
    let nodes = nodes.into_list(alloc)?;
    strides.begin(nodes.len());
    thread::scope(
        thread::scope_env(),
        rt,
        |scope| -> Result<Totals, AllocError>
            ensures { IfOk result (AreTotalsOf asked) }
        {
            let turns = asked.limits.turns;
            // Who starts them counts too, until all are started.
            let starting = Watch::counted(aim, None);
            let mut running = match Vec::with_capacity(alloc, nodes.len()) {
                Ok(running) => running,
                Err(refused) => {
                    drop(nodes);
                    drop(starting);
                    return Err(refused);
                }
            };
            for node in nodes {
                let watch = node.watch(aim, strides);
                match scope.spawn_with(AtMost { turns }, move || node.run(rt, turns, watch, gate)) {
                    Ok(handle) => running.push(handle)?,
                    Err(refused) => {
                        drop(refused);
                        break;
                    }
                }
            }
            drop(starting);
            Ok(join_threads(rt, running, asked))
        },
    )
}

/// Joins threads, and adds up what they left.
fn join_threads<R: Threads>(
    rt: &R,
    running: Vec<PromisedHandle<NodeEnd, AtMost>>,
    asked: Asked,
) -> Totals
    requires { All (λ h. h.promise.turns ≤ asked.limits.turns) running.items }
    ensures { AreTotalsOf asked result }
{
    let mut totals = Totals::of(asked.kind, asked.tables);
    for handle in running {
        totals.add(handle.join(rt));
    }
    totals.is_short = u128::from(totals.figures.threads) != asked.threads;
    totals
}

/// The report of the grants in the book, of which so many came by their serials; or why there is
/// none.
fn report(
    alloc: Global,
    plan: &Plan,
    book: SharedBook<'_>,
    entered: u64,
    totals: Totals,
    limits: Limits,
) -> Result<(HostReport, HostFigures), HostFault>
    ensures run { IfOk result (λ done. IsModelRun plan.now.model 0 done.0.grants.items) }
    ensures all { IfOk result (λ done. IsReportOf limits book.entry entered totals done.0 done.1) }
    ensures fault { IfErr result IsHostFault }
    ensures why { IfErr result (IsWhyNone plan.now.model book.entry totals.wanted_memory
        totals.is_short) }
{
    let wanted_memory = totals.wanted_memory || book.wanted_memory();
    let grants = as_run(alloc, plan.model(), book.into_grants()?)?;
    if wanted_memory {
        return Err(HostFault::Memory);
    }
    if totals.is_short {
        return Err(HostFault::Thread);
    }
    let figures = HostFigures {
        ended: why_ended(limits, grants.len() as u64, totals.figures.most_turns),
        entered,
        ..totals.figures
    };
    let report = HostReport {
        grants,
        told: totals.told,
        lost: totals.lost,
    };
    Ok((report, figures))
}

/// Why a host ended whose book has so many grants, and that one of whose threads which made most
/// turns made so many.
fn why_ended(limits: Limits, grants: u64, most_turns: u64) -> Ended
    ensures { result ≡ ended_of limits.grants grants (most_turns == limits.turns) }
{
    match limits.grants {
        None => Ended::ByTurns,
        Some(wanted) if wanted <= grants => Ended::ByGrants,
        Some(_) if most_turns == u64::from(limits.turns) => Ended::ByTurns,
        Some(_) => Ended::ByQuiet,
    }
}
