//! The texts of answers: of steps, of seeds, of hosts.
ghost use Rattle.std.specs.Prelude.{◌≡◌, IfOk};
ghost use Rattle.bipr.specs.Wording.{asking_text, decisions_text, drawn_text, ended_text};
ghost use Rattle.bipr.specs.Wording.{host_end_text, host_work_text, losses_text, pace_text};
ghost use Rattle.bipr.specs.Wording.{progress_text, reached_text, report_text, schedule_refusal};
ghost use Rattle.bipr.specs.Wording.{seconds_text, seed_verdict, seeds_text, sharing_text};
ghost use Rattle.bipr.specs.Wording.{stats_text, stuck_text, timed_text, walks_text};

use crate::hosted::Hosted;
use crate::progress::Pace;
use arrayvec::ArrayVec;
use bip_core::Report;
use bip_host::Ended;
use bip_replay::TraceFault;
use itoa::Buffer;
use std::alloc::{AllocError, Global};

/// How many bytes the verdict on a seed has at most.
const MOST_OF_VERDICT: usize = 64;

/// `nothing may run after K grants`.
pub fn stuck_text(alloc: Global, count: u64) -> Result<Vec<u8>, AllocError>
    ensures { IfOk result (λ text. text.items ≡ stuck_text count) }
{
    Ok(format!(in alloc; "nothing may run after {count} grants\n")?.into_bytes())
}

/// `walks K grants G`.
pub fn walks_text(alloc: Global, walks: u32, grants: u64) -> Result<Vec<u8>, AllocError>
    ensures { IfOk result (λ text. text.items ≡ walks_text walks grants) }
{
    Ok(format!(in alloc; "walks {walks} grants {grants}\n")?.into_bytes())
}

/// The complaint of a schedule's text.
pub fn schedule_refusal(alloc: Global, line: u64, fault: &TraceFault) -> Result<Vec<u8>, AllocError>
    ensures { IfOk result (λ text. text.items ≡ schedule_refusal line fault.now) }
{
    Ok(format!(in alloc; "bipr: schedule line {line}: {fault}\n")?.into_bytes())
}

/// `events E grants G refusals R idle I skipped K lost L`.
pub fn report_text(alloc: Global, report: &Report) -> Result<Vec<u8>, AllocError>
    ensures { IfOk result (λ text. text.items ≡ report_text report.now) }
{
    let mut text = decisions_text(alloc, report)?.into_bytes();
    text.extend_from_slice(losses_text(alloc, report)?.as_bytes())?;
    Ok(text)
}

fn decisions_text(alloc: Global, report: &Report) -> Result<String, AllocError>
    ensures { IfOk result (λ text. text.bytes.items ≡ decisions_text report.now) }
{
    let Report {
        events,
        grants,
        refusals,
        ..
    } = *report;
    format!(in alloc; "events {events} grants {grants} refusals {refusals}")
}

fn losses_text(alloc: Global, report: &Report) -> Result<String, AllocError>
    ensures { IfOk result (λ text. text.bytes.items ≡ losses_text report.now) }
{
    let Report {
        idle,
        skipped,
        lost,
        ..
    } = *report;
    format!(in alloc; " idle {idle} skipped {skipped} lost {lost}\n")
}

/// `threads H turns N grants G told T lost L seconds S passes P asks A refusals R busy B words W
/// entered E`, where S has three places behind the point; and where a number of grants was asked
/// for, why the host ended.
pub fn stats_text(alloc: Global, hosted: &Hosted) -> Result<Vec<u8>, AllocError>
    ensures { IfOk result (λ text. text.items ≡ stats_text hosted.now) }
{
    let mut text = host_work_text(alloc, hosted)?.into_bytes();
    text.extend_from_slice(host_end_text(alloc, hosted)?.as_bytes())?;
    text.extend_from_slice(seconds_text(alloc, hosted.milliseconds)?.as_bytes())?;
    text.extend_from_slice(sharing_text(alloc, hosted)?.as_bytes())?;
    text.extend_from_slice(asking_text(alloc, hosted)?.as_bytes())?;
    text.extend_from_slice(drawn_text(alloc, hosted)?.as_bytes())?;
    text.extend_from_slice(ended_text(hosted))?;
    Ok(text)
}

/// Why a host ended, where a number of grants was asked for.
fn ended_text(hosted: &Hosted) -> &'static [u8]
    ensures { result.now ≡ ended_text hosted.now }
{
    if hosted.limits.grants.is_none() {
        return &[];
    }
    match hosted.figures.ended {
        Ended::ByGrants => b"ended by grants\n",
        Ended::ByQuiet => b"ended by quiet\n",
        Ended::ByTurns => b"ended by turns\n",
    }
}

fn host_work_text(alloc: Global, hosted: &Hosted) -> Result<String, AllocError>
    ensures { IfOk result (λ text. text.bytes.items ≡ host_work_text hosted.now) }
{
    let (threads, turns) = (hosted.figures.threads, hosted.figures.turns);
    let grants = hosted.report.grants.len();
    format!(in alloc; "threads {threads} turns {turns} grants {grants}")
}

fn host_end_text(alloc: Global, hosted: &Hosted) -> Result<String, AllocError>
    ensures { IfOk result (λ text. text.bytes.items ≡ host_end_text hosted.now) }
{
    let (told, lost) = (hosted.report.told, hosted.report.lost);
    format!(in alloc; " told {told} lost {lost} seconds ")
}

fn seconds_text(alloc: Global, milliseconds: u64) -> Result<String, AllocError>
    ensures { IfOk result (λ text. text.bytes.items ≡ seconds_text milliseconds) }
{
    let seconds = milliseconds / 1000;
    let tenth = milliseconds / 100 % 10;
    let hundredth = milliseconds / 10 % 10;
    let thousandth = milliseconds % 10;
    format!(in alloc; "{seconds}.{tenth}{hundredth}{thousandth}")
}

fn sharing_text(alloc: Global, hosted: &Hosted) -> Result<String, AllocError>
    ensures { IfOk result (λ text. text.bytes.items ≡ sharing_text hosted.now) }
{
    let (passes, asks) = (hosted.figures.passes, hosted.figures.asks);
    format!(in alloc; " passes {passes} asks {asks}")
}

fn asking_text(alloc: Global, hosted: &Hosted) -> Result<String, AllocError>
    ensures { IfOk result (λ text. text.bytes.items ≡ asking_text hosted.now) }
{
    let (refusals, busy) = (hosted.figures.refusals, hosted.figures.busy);
    format!(in alloc; " refusals {refusals} busy {busy}")
}

fn drawn_text(alloc: Global, hosted: &Hosted) -> Result<String, AllocError>
    ensures { IfOk result (λ text. text.bytes.items ≡ drawn_text hosted.now) }
{
    let (drawn, entered) = (hosted.figures.drawn, hosted.figures.entered);
    format!(in alloc; " words {drawn} entered {entered}\n")
}

/// `seeds K runs K`.
pub fn seeds_text(alloc: Global, seeds: u32) -> Result<Vec<u8>, AllocError>
    ensures { IfOk result (λ text. text.items ≡ seeds_text seeds) }
{
    Ok(format!(in alloc; "seeds {seeds} runs {seeds}\n")?.into_bytes())
}

/// `seed S: not a run`, which takes no memory.
pub fn seed_verdict(seed: u32) -> ArrayVec<u8, MOST_OF_VERDICT>
    ensures { result.items ≡ seed_verdict seed }
{
    let mut text = ArrayVec::new();
    let _begun = text.try_extend_from_slice(b"seed ");
    let _named = text.try_extend_from_slice(Buffer::new().format(seed).as_bytes());
    let _ended = text.try_extend_from_slice(b": not a run\n");
    text
}

/// `seeds D of K`, where so many of the seeds are done.
pub fn progress_text(alloc: Global, done: u32, seeds: u32) -> Result<Vec<u8>, AllocError>
    ensures { IfOk result (λ text. text.items ≡ progress_text done seeds) }
{
    Ok(format!(in alloc; "seeds {done} of {seeds}\n")?.into_bytes())
}

/// `at seed D of K: E events, S seeds a second, T seconds left`, where so many of the seeds are
/// done and did so many events.
pub fn timed_text(
    alloc: Global,
    done: u32,
    seeds: u32,
    events: u64,
    pace: &Pace,
) -> Result<Vec<u8>, AllocError>
    ensures { IfOk result (λ text. text.items
        ≡ timed_text done seeds events pace.now.rate pace.now.left) }
{
    let mut text = reached_text(alloc, done, seeds, events)?.into_bytes();
    text.extend_from_slice(pace_text(alloc, pace)?.as_bytes())?;
    Ok(text)
}

fn reached_text(alloc: Global, done: u32, seeds: u32, events: u64) -> Result<String, AllocError>
    ensures { IfOk result (λ text. text.bytes.items ≡ reached_text done seeds events) }
{
    format!(in alloc; "at seed {done} of {seeds}: {events} events, ")
}

fn pace_text(alloc: Global, pace: &Pace) -> Result<String, AllocError>
    ensures { IfOk result (λ text. text.bytes.items ≡ pace_text pace.now.rate pace.now.left) }
{
    let Pace { rate, left } = *pace;
    format!(in alloc; "{rate} seeds a second, {left} seconds left\n")
}
