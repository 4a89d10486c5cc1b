//! The steps of a bank by number, but for those that deliver.
ghost use Rattle.std.specs.Prelude.{◌≡◌, ◌<◌, ◌≤◌, ◌+◌, ◌*◌};
ghost use Rattle.bip_bank.specs.Steps.{pair_at, step_at, step_count};

use crate::{BankStep, StationId};

/// How many steps a bank with so many stations has, but for those that deliver.
pub fn step_count(stations: usize) -> usize
    requires few { stations ≤ 65536 }
    ensures { result ≡ step_count stations }
{
    stations + stations * stations + stations * stations
}

/// The step with a number, from 0, of a bank with so many stations, but for those that deliver:
/// first those that serve, by station; then those that pass, by pair of stations; then those that
/// ask, by pair (docs/ANSWERS.md, "Busy events by chance").
pub fn step_at(stations: usize, number: usize) -> BankStep
    requires few { stations ≤ 65536 }
    requires within { number < step_count stations }
    ensures { result ≡ step_at stations number }
{
    let pairs = stations * stations;
    if number < stations {
        return BankStep::Serve(StationId(number as u16));
    }
    let behind = number - stations;
    if behind < pairs {
        let (from, to) = pair_at(stations, behind);
        return BankStep::Pass(from, to);
    }
    let (from, to) = pair_at(stations, behind - pairs);
    BankStep::Ask(from, to)
}

/// The pair of stations with a number: by the first one, then by the second.
fn pair_at(stations: usize, number: usize) -> (StationId, StationId)
    requires few { stations ≤ 65536 }
    requires within { number < stations * stations }
    ensures { result ≡ pair_at stations number }
{
    let from = (number / stations) as u16;
    let to = (number % stations) as u16;
    (StationId(from), StationId(to))
}
