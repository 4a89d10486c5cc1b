//! Fields at the front of bytes: what a field says, and the bytes behind it.
ghost use Rattle.std.specs.Prelude.{◌≡◌};
ghost use Rattle.std.specs.Int.{w16, w64};
ghost use Rattle.bip_frame.specs.Entries.{read_count, read_rising};
ghost use Rattle.bip_frame.specs.Fields.{Gives, read_byte, read_head, read_number, read_port};
ghost use Rattle.bip_frame.specs.Fields.{read_positive, read_values};
ghost use Rattle.bip_frame.specs.Lent.{values_in};

use crate::FrameFault;
use crate::frames::LentValues;

/// What requests and replies begin with.
#[derive(Clone, Copy)]
pub(crate) struct HeadFields {
    pub(crate) request: u64,
    pub(crate) class: u16,
    pub(crate) inter: u16,
}

pub(crate) fn take_byte(bytes: &[u8]) -> Result<(u8, &[u8]), FrameFault>
    ensures { Gives (λ x. (x.0, x.1.now)) result (read_byte bytes.now) }
{
    match bytes {
        [] => Err(FrameFault::Short),
        [byte, rest @ ..] => Ok((*byte, rest)),
    }
}

pub(crate) fn take_u16(bytes: &[u8]) -> Result<(u16, &[u8]), FrameFault>
    ensures { Gives (λ x. (x.0, x.1.now)) result (read_number w16 bytes.now) }
{
    if bytes.len() < 2 {
        return Err(FrameFault::Short);
    }
    let (front, rest) = bytes.split_at(2);
    let number = u16::from_be_bytes([front[0], front[1]]);
    Ok((number, rest))
}

pub(crate) fn take_u64(bytes: &[u8]) -> Result<(u64, &[u8]), FrameFault>
    ensures { Gives (λ x. (x.0, x.1.now)) result (read_number w64 bytes.now) }
{
    if bytes.len() < 8 {
        return Err(FrameFault::Short);
    }
    let (front, rest) = bytes.split_at(8);
    let number = u64::from_be_bytes([
        front[0], front[1], front[2], front[3], front[4], front[5], front[6], front[7],
    ]);
    Ok((number, rest))
}

/// The number of a move or of a request, which is at least 1.
#[tactic(auto, unfolding(crate::specs::Fields::read_positive))]
pub(crate) fn take_positive(bytes: &[u8]) -> Result<(u64, &[u8]), FrameFault>
    ensures { Gives (λ x. (x.0, x.1.now)) result (read_positive bytes.now) }
{
    let (number, rest) = take_u64(bytes)?;
    if number == 0 {
        return Err(FrameFault::ZeroNumber);
    }
    Ok((number, rest))
}

#[tactic(auto, unfolding(crate::specs::Fields::read_port))]
pub(crate) fn take_port(bytes: &[u8]) -> Result<(u8, &[u8]), FrameFault>
    ensures { Gives (λ x. (x.0, x.1.now)) result (read_port bytes.now) }
{
    let (port, rest) = take_byte(bytes)?;
    if 15 < port {
        return Err(FrameFault::PortNo);
    }
    Ok((port, rest))
}

/// A count of values, and the values.
#[tactic(auto, unfolding(crate::specs::Fields::read_values))]
pub(crate) fn take_values(bytes: &[u8]) -> Result<(LentValues, &[u8]), FrameFault>
    ensures { Gives (λ x. (values_in x.0.count x.0.vars.now, x.1.now)) result
        (read_values bytes.now) }
{
    let (count, rest) = take_byte(bytes)?;
    if 8 < count {
        return Err(FrameFault::Count);
    }
    let len = 4 * count as usize;
    if rest.len() < len {
        return Err(FrameFault::Short);
    }
    let (vars, rest) = rest.split_at(len);
    Ok((LentValues { vars, count }, rest))
}

/// A number that isn't below the lowest one that may stand there.
#[tactic(auto, unfolding(crate::specs::Entries::read_rising))]
pub(crate) fn take_rising(low: u32, bytes: &[u8]) -> Result<(u16, &[u8]), FrameFault>
    ensures { Gives (λ x. (x.0, x.1.now)) result (read_rising low bytes.now) }
{
    let (number, rest) = take_u16(bytes)?;
    if (number as u32) < low {
        return Err(FrameFault::Order);
    }
    Ok((number, rest))
}

/// How many parts there are: at least one, and at most so many.
#[tactic(auto, unfolding(crate::specs::Entries::read_count))]
pub(crate) fn take_count(most: u8, bytes: &[u8]) -> Result<(u8, &[u8]), FrameFault>
    ensures { Gives (λ x. (x.0, x.1.now)) result (read_count most bytes.now) }
{
    let (count, rest) = take_byte(bytes)?;
    if count == 0 || most < count {
        return Err(FrameFault::Count);
    }
    Ok((count, rest))
}

#[tactic(auto, unfolding(crate::specs::Fields::read_head))]
pub(crate) fn take_head(bytes: &[u8]) -> Result<(HeadFields, &[u8]), FrameFault>
    ensures { Gives (λ x. (
      record {
        class = x.0.class;
        request = x.0.request;
        inter = x.0.inter;
      },
      x.1.now,
    )) result (read_head bytes.now) }
{
    let (class, rest) = take_u16(bytes)?;
    let (request, rest) = take_positive(rest)?;
    let (inter, rest) = take_u16(rest)?;
    Ok((
        HeadFields {
            class,
            request,
            inter,
        },
        rest,
    ))
}
