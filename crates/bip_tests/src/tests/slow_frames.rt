//! A slow reading of frames by the table of kinds (docs/FRAMES.md): what fault bytes have.
use self::Field::{Eight, Entries, Explained, Numbered, Port, Two, Values};

/// A field of a frame: so many bytes, a number of at least 1, entries with reasons behind them, or
/// what its name says.
#[derive(Clone, Copy)]
enum Field {
    Two,
    Eight,
    Numbered,
    Port,
    Values,
    Entries,
    Explained,
}

/// The fields behind the byte of each kind, from kind 1 on: offer, request, granted, refused,
/// notification, request with reasons.
const KINDS: [&[Field]; 6] = [
    &[Two, Numbered, Two, Values],
    &[Two, Numbered, Two, Entries],
    &[Two, Numbered, Two, Eight],
    &[Two, Numbered, Two, Two, Numbered],
    &[Two, Numbered, Port, Values],
    &[Two, Numbered, Two, Explained],
];

// The numbers of faults.
const KIND: u8 = 1;

const SHORT: u8 = 2;

const COUNT: u8 = 3;

const ROLE: u8 = 4;

const ORDER: u8 = 5;

const NO_MOVER: u8 = 6;

const ZERO_NUMBER: u8 = 7;

const PORT_NO: u8 = 8;

const LONG: u8 = 9;

/// The number of the first fault that bytes have; 0 where they are a frame.
pub(super) fn fault_by_table(bytes: &[u8]) -> u8 {
    let [kind, rest @ ..] = bytes else {
        return SHORT;
    };
    let Some(fields) = KINDS.get((*kind as usize).wrapping_sub(1)) else {
        return KIND;
    };
    match behind_all(fields, rest) {
        Ok([]) => 0,
        Ok(_) => LONG,
        Err(fault) => fault,
    }
}

/// What stands behind fields, or the number of the first fault.
fn behind_all<'a>(fields: &[Field], bytes: &'a [u8]) -> Result<&'a [u8], u8> {
    let mut rest = bytes;
    for field in fields {
        rest = behind(*field, rest)?;
    }
    Ok(rest)
}

fn behind(field: Field, bytes: &[u8]) -> Result<&[u8], u8> {
    match field {
        Two => skip(bytes, 2),
        Eight => skip(bytes, 8),
        Numbered => behind_number(bytes),
        Port => match bytes {
            [] => Err(SHORT),
            [0..=15, rest @ ..] => Ok(rest),
            [_, ..] => Err(PORT_NO),
        },
        Values => match bytes {
            [] => Err(SHORT),
            [count @ 0..=8, rest @ ..] => skip(rest, 4 * *count as usize),
            [_, ..] => Err(COUNT),
        },
        Entries => {
            let (moved, rest) = behind_entries(bytes)?;
            if moved { Ok(rest) } else { Err(NO_MOVER) }
        }
        Explained => {
            let (moved, reasons) = behind_entries(bytes)?;
            let rest = behind_reasons(reasons)?;
            if moved { Ok(rest) } else { Err(NO_MOVER) }
        }
    }
}

/// What stands behind a number of eight bytes, which isn't 0.
fn behind_number(bytes: &[u8]) -> Result<&[u8], u8> {
    let rest = skip(bytes, 8)?;
    if bytes.iter().take(8).all(|byte| *byte == 0) {
        return Err(ZERO_NUMBER);
    }
    Ok(rest)
}

fn skip(bytes: &[u8], count: usize) -> Result<&[u8], u8> {
    bytes.get(count..).ok_or(SHORT)
}

/// A count of at least 1 and at most so many, and what stands behind it.
fn counted(bytes: &[u8], most: u8) -> Result<(u8, &[u8]), u8> {
    match bytes {
        [] => Err(SHORT),
        [0, ..] => Err(COUNT),
        [count, rest @ ..] => {
            if most < *count {
                return Err(COUNT);
            }
            Ok((*count, rest))
        }
    }
}

/// Two bytes above the last two, and what stands behind them.
fn above(last: Option<(u8, u8)>, bytes: &[u8]) -> Result<((u8, u8), &[u8]), u8> {
    let [high, low, rest @ ..] = bytes else {
        return Err(SHORT);
    };
    let number = (*high, *low);
    if last.is_some_and(|last| number <= last) {
        return Err(ORDER);
    }
    Ok((number, rest))
}

/// Whether an entry moves its component, and what stands behind all entries.
fn behind_entries(bytes: &[u8]) -> Result<(bool, &[u8]), u8> {
    let (count, entries) = counted(bytes, 32)?;
    let mut rest = entries;
    let mut last: Option<(u8, u8)> = None;
    let mut moved = false;
    for _ in 0..count {
        let (comp, role) = above(last, rest)?;
        last = Some(comp);
        rest = match role {
            [] => return Err(SHORT),
            [0, number @ ..] => behind_number(number)?,
            [1, number @ ..] => {
                moved = true;
                behind_number(number)?
            }
            [_, ..] => return Err(ROLE),
        };
    }
    Ok((moved, rest))
}

fn behind_reasons(bytes: &[u8]) -> Result<&[u8], u8> {
    let (count, reasons) = counted(bytes, 127)?;
    let mut rest = reasons;
    let mut last: Option<(u8, u8)> = None;
    for _ in 0..count {
        let (inter, cause) = above(last, rest)?;
        last = Some(inter);
        rest = skip(cause, 2)?;
    }
    Ok(rest)
}
