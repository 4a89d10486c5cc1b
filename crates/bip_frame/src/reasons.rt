//! Reasons of a request: why what is above its interaction isn't enabled.
ghost use Rattle.std.specs.Prelude.{◌≡◌, ◌∷◌, IfOk};
ghost use Rattle.bip_frame.specs.Entries.{no_word, passed, read_parts, read_reason, read_reasons};
ghost use Rattle.bip_frame.specs.Faults.{reason_parts};
ghost use Rattle.bip_frame.specs.Fields.{Gives};
ghost use Rattle.bip_frame.specs.Frames.{inter_of};
ghost use Rattle.bip_frame.specs.Lent.{whys_lent};
ghost use Rattle.bip_frame.specs.Reading.{Lies};

use crate::FrameFault;
use crate::fields::{take_count, take_rising, take_u16};
use bip_model::{Cause, InterId, Why};

/// The most reasons of a request.
const MOST_REASONS: u8 = 127;

/// Reasons that were passed: so many at the front of a list, and what stands behind them.
#[derive(Clone, Copy)]
pub(crate) struct PassedReasons<'a> {
    pub(crate) list: &'a [u8],
    pub(crate) rest: &'a [u8],
    pub(crate) count: u8,
}

#[tactic(auto, unfolding(crate::specs::Entries::read_reason))]
fn take_reason(low: u32, bytes: &[u8]) -> Result<(Why, &[u8]), FrameFault>
    ensures { Gives (λ x. (x.0, x.1.now)) result (read_reason low bytes.now) }
{
    let (inter, rest) = take_rising(low, bytes)?;
    let (cause, rest) = take_u16(rest)?;
    Ok((
        Why {
            inter: InterId(inter),
            cause: Cause::of_number(cause),
        },
        rest,
    ))
}

/// Passes so many reasons, each with an interaction above the one before: the bytes behind them.
#[inline(always)]
fn pass_reasons(count: u8, bytes: &[u8]) -> Result<&[u8], FrameFault>
    ensures { Gives (λ x. (tt, x.now)) result
        (passed no_word (read_parts read_reason inter_of count 0 bytes.now)) }
{
    let mut low: u32 = 0;
    let mut rest = bytes;
    for _ in 0..count {
        let (why, after) = take_reason(low, rest)?;
        low = why.inter.0 as u32 + 1;
        rest = after;
    }
    Ok(rest)
}

/// A count of reasons, and the reasons.
#[inline(always)]
#[tactic(auto, unfolding(crate::specs::Entries::read_list))]
pub(crate) fn take_reasons(bytes: &[u8]) -> Result<PassedReasons, FrameFault>
    ensures read { Gives (λ x. (whys_lent x.count x.list.now, x.rest.now)) result
        (read_reasons bytes.now) }
    ensures lie { IfOk result (λ x.
        (bytes.now ≡ x.count ∷ x.list.now)
        × Lies reason_parts (whys_lent x.count x.list.now) x.list.now x.rest.now
        ) }
{
    let (count, list) = take_count(MOST_REASONS, bytes)?;
    let rest = pass_reasons(count, list)?;
    Ok(PassedReasons { list, rest, count })
}
