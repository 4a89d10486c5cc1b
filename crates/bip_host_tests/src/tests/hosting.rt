//! Hosts: two classes that meet between their grants and their notifications, a class that waits
//! for another one's grant, and hosts that run until there are enough grants.
use super::{COMPETE, COMPETE_TWICE, plan};
use bip_host::{
    Ended, Gate, HostReport, Kind, Limits, Open, Point, Tables, can_have, run_host,
    run_host_counted,
};
use bip_model::{ClassId, CompId, Want};
use std::alloc::Global;
use std::process::Abort;
use std::sync::Wait;
use std::sync::atomic::{AtomicU64, Ordering};
use std::test::*;
use std::thread;
use std::thread::Threads;

/// Two components that each move once by themselves, in a class each.
const APART: &str = "bip 1\n\
    component A\nloc a0\nloc a1\nport s\ntrans s a0 a1\nend\n\
    component B\nloc b0\nloc b1\nport s\ntrans s b0 b1\nend\n\
    interaction x A.s\ninteraction y B.s\nclass P x\nclass Q y\n";

/// The same, where each looks at a third component, which can't move: both are reserved, and not in
/// conflict.
const WATCHING: &str = "bip 1\n\
    component A\nloc a0\nloc a1\nport s\ntrans s a0 a1\nend\n\
    component B\nloc b0\nloc b1\nport s\ntrans s b0 b1\nend\n\
    component C\nloc c0\nport k\nend\n\
    interaction x A.s\ninteraction y B.s\ninteraction z C.k\n\
    priority x < z\npriority y < z\nclass P x z\nclass Q y\n";

/// How often a gate looks for what it waits for.
const LOOKS: u32 = 100_000;

/// How often it gives way between two looks: the other thread may stand behind other programs.
const YIELDS: u32 = 20;

/// The kinds of third layer, with how tables are shared.
pub(super) const FORMS: [(Kind, Tables); 4] = [
    (Kind::Central, Tables::Locked),
    (Kind::Central, Tables::Words),
    (Kind::Ring, Tables::Locked),
    (Kind::Forks, Tables::Locked),
];

const TURNS: Limits = Limits {
    turns: 1_000_000,
    grants: None,
};

const FEW: Limits = Limits {
    turns: 200_000,
    grants: None,
};

/// How often a host runs at most until each class gets on: where other programs have the
/// processors, a node may make all its turns before another one begins, or while one is held.
const GOES: u32 = 20;

/// Waits until a flag is raised, and says whether it was.
fn sees(flag: &AtomicU64) -> bool {
    for _ in 0..LOOKS {
        if flag.load(Ordering::SeqCst) == 1 {
            return true;
        }
        give_way();
    }
    false
}

fn give_way() {
    for _ in 0..YIELDS {
        thread::yield_now();
    }
}

/// At its grant each class raises its flag, and waits for the other's: so two threads are needed.
#[derive(Drop)]
struct Meeting {
    raised: [AtomicU64; 2],
    met: AtomicU64,
}

impl Gate for Meeting {
    fn pass<R: Wait>(&self, _rt: &R, at: Point) {
        let Point::Told(ClassId(class), _) = at else {
            return;
        };
        let mine = usize::from(class % 2);
        self.raised[mine].store(1, Ordering::SeqCst);
        if sees(&self.raised[1 - mine]) {
            self.met.fetch_add(1, Ordering::SeqCst);
        }
    }
}

/// Runs the nodes of a model in a form, with a gate.
fn host<G: Gate + Sync, R: Threads + Wait + Abort + Sync>(
    rt: &R,
    alloc: Global,
    text: &str,
    (kind, tables): (Kind, Tables),
    limits: Limits,
    gate: &G,
) -> HostReport {
    let plan = plan(rt, alloc, text);
    assert!(rt; can_have(&plan, kind, tables));
    let report = run_host(rt, alloc, &plan, kind, tables, limits, gate).expect(rt, "a report");
    drop(plan);
    report
}

/// Lets both classes of a model make their one grant, in a form, and says whether they met: where
/// other programs have the processors, one may have made all its turns before the other begins.
fn meets<R: Threads + Wait + Abort + Sync>(
    rt: &R,
    alloc: Global,
    text: &str,
    form: (Kind, Tables),
) -> Result<bool, Fail> {
    let gate = Meeting {
        raised: [AtomicU64::new(0), AtomicU64::new(0)],
        met: AtomicU64::new(0),
    };
    let report = host(rt, alloc, text, form, FEW, &gate);
    if gate.met.load(Ordering::SeqCst) != 2 {
        return Ok(false);
    }
    assert_eq!(rt; (report.told, report.lost), (2, 0));
    let mut names = Vec::new(alloc);
    for grant in report.grants.iter() {
        names.push(grant.inter.0)?;
    }
    names.sort_unstable();
    assert_eq!(rt; names.as_slice(), [0, 1].as_slice());
    Ok(true)
}

/// They meet in each form.
fn meet<R: Threads + Wait + Abort + Sync>(rt: &R, alloc: Global, text: &str) -> Result<(), Fail> {
    for form in FORMS {
        let mut met = false;
        for _ in 0..GOES {
            met = met || meets(rt, alloc, text, form)?;
        }
        assert_eq!(rt; met, true);
    }
    Ok(())
}

#[test]
fn two_classes_meet(rt: HostRuntime) -> Result<(), Fail> {
    meet(&rt, rt.alloc(), APART)
}

#[test]
fn two_classes_meet_behind_stations(rt: HostRuntime) -> Result<(), Fail> {
    meet(&rt, rt.alloc(), WATCHING)
}

/// The first class asks once the second's grant is told.
#[derive(Drop)]
struct Behind {
    told: AtomicU64,
}

impl Gate for Behind {
    fn pass<R: Wait>(&self, _rt: &R, at: Point) {
        match at {
            Point::Told(ClassId(1), _) => self.told.store(1, Ordering::SeqCst),
            Point::Asked(ClassId(0), _) => {
                sees(&self.told);
            }
            _ => {}
        }
    }
}

/// Runs a model in which the first class asks behind the second's grant, in each form: these
/// interactions are granted, with these numbers of the third component.
fn wait<R: Threads + Wait + Abort + Sync>(
    rt: &R,
    alloc: Global,
    text: &str,
    expected: &[(u16, u64)],
) -> Result<(), Fail> {
    for form in FORMS {
        let gate = Behind {
            told: AtomicU64::new(0),
        };
        let report = host(rt, alloc, text, form, TURNS, &gate);
        let mut granted = Vec::new(alloc);
        for grant in report.grants.iter() {
            granted.push((grant.inter.0, number_of(grant.wants.as_slice(), CompId(2))))?;
        }
        assert_eq!(rt; granted.as_slice(), expected);
    }
    Ok(())
}

/// The number that wants have of a component; 0 where they have none.
fn number_of(wants: &[Want], comp: CompId) -> u64 {
    match wants.iter().find(|want| want.comp == comp) {
        Some(want) => want.number,
        None => 0,
    }
}

#[test]
fn one_waits_for_another(rt: HostRuntime) -> Result<(), Fail> {
    wait(&rt, rt.alloc(), COMPETE, &[(1, 1)])
}

/// Its first request is refused, from which it knows that the third has moved; it asks once more.
#[test]
fn a_refusal_counts(rt: HostRuntime) -> Result<(), Fail> {
    wait(&rt, rt.alloc(), COMPETE_TWICE, &[(1, 1), (0, 2)])
}

/// One component that moves by one class, and then by another one.
const ONE_BEHIND_ANOTHER: &str = "bip 1\n\
    component A\nloc a0\nloc a1\nloc a2\nport s\nport t\ntrans s a0 a1\ntrans t a1 a2\nend\n\
    interaction x A.s\ninteraction y A.t\nclass P x\nclass Q y\n";

/// Holds the first class back at its grant, and looks whether the second gets on meanwhile.
#[derive(Drop)]
struct Held {
    told: AtomicU64,
    early: AtomicU64,
}

impl Gate for Held {
    fn pass<R: Wait>(&self, _rt: &R, at: Point) {
        match at {
            Point::Told(ClassId(1), _) => self.told.store(1, Ordering::SeqCst),
            Point::Told(ClassId(0), _) => {
                for _ in 0..YIELDS {
                    give_way();
                }
                self.early
                    .store(self.told.load(Ordering::SeqCst), Ordering::SeqCst);
            }
            _ => {}
        }
    }
}

/// Runs a host in a form with the first class held back: the second one hasn't got on meanwhile.
/// How many grants there are.
fn hold<R: Threads + Wait + Abort + Sync>(rt: &R, alloc: Global, form: (Kind, Tables)) -> usize {
    let gate = Held {
        told: AtomicU64::new(0),
        early: AtomicU64::new(0),
    };
    let report = host(rt, alloc, ONE_BEHIND_ANOTHER, form, TURNS, &gate);
    assert_eq!(rt; gate.early.load(Ordering::SeqCst), 0);
    report.grants.len()
}

#[test]
fn nobody_moves_on_before_it_is_told(rt: HostRuntime) {
    for form in FORMS {
        let mut most = 0;
        for _ in 0..GOES {
            if most < 2 {
                most = hold(&rt, rt.alloc(), form);
            }
        }
        assert_eq!(&rt; most, 2);
    }
}

/// Two components that move together for ever.
const FOR_EVER: &str = "bip 1\n\
    component A\nloc l\nport s\ntrans s l l\nend\n\
    component B\nloc l\nport s\ntrans s l l\nend\n\
    interaction x A.s B.s\ninteraction y B.s\nclass P x\nclass Q y\n";

/// Why a host ended that runs until there are five grants, far within its turns.
fn end_by_grants<R: Threads + Wait + Abort + Sync>(
    rt: &R,
    alloc: Global,
    text: &str,
    (kind, tables): (Kind, Tables),
) -> Ended {
    let plan = plan(rt, alloc, text);
    assert!(rt; can_have(&plan, kind, tables));
    let limits = Limits {
        turns: 1_000_000_000,
        grants: Some(5),
    };
    let (report, figures) = run_host_counted(rt, alloc, &plan, kind, tables, limits, &Open).expect(
        rt, "a report",
    );
    drop(report);
    drop(plan);
    figures.ended
}

#[test]
fn hosts_end_by_grants_or_quiet(rt: HostRuntime) {
    for form in FORMS {
        assert_eq!(&rt;
            end_by_grants(&rt, rt.alloc(), FOR_EVER, form),
            Ended::ByGrants
        );
        assert_eq!(&rt;
            end_by_grants(&rt, rt.alloc(), COMPETE, form),
            Ended::ByQuiet
        );
    }
}
