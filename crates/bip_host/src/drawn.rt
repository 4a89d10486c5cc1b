//! Grants of a word table with their serials, and the one thing that makes them.
ghost use Rattle.std.specs.Prelude.{◌≡◌, ◌≤◌, ◌<◌, ◌^◌, false, All, IfErr, IfOk};
ghost use Rattle.bip_host.specs.Attempts.{IsOneAttempt};
ghost use Rattle.bip_model.specs.declared.wants.Want.{Want};
ghost use Rattle.bip_words.specs.Knowledge.{asked_by};
ghost use Rattle.bip_words.specs.Reserving.{is_granted};
ghost use Rattle.bip_words.specs.Tables.{IsSeatOf};
ghost use Rattle.bip_words.specs.declared.tables.Attempt.TheVariants.{Granted};

use bip_model::{Grant, Request};
use bip_words::{Attempt, Seat, WordTable};

/// A grant of a word table, with its serial. An attempt alone makes one, so that nothing else can
/// be laid beside a book.
#[derive(Drop)]
pub struct Drawn {
    serial: u64,
    grant: Grant,
    ghost small: { serial ≤ 2 ^ 63 },
}

impl Drawn {
    /// The serial of the grant.
    pub fn serial(&self) -> u64
        ensures { result ≡ self.now.serial }
    {
        self.serial
    }

    /// The serial and the grant.
    pub(crate) fn into_parts(self) -> (u64, Grant)
        ensures is { (result.0 ≡ self.serial) × (result.1 ≡ self.grant) }
        ensures small { result.0 ≤ 2 ^ 63 }
    {
        let Drawn { serial, grant } = self;
        (serial, grant)
    }
}

/// Tries once to draw a request's grant; else what the attempt came to.
pub(crate) fn try_draw(
    table: &WordTable,
    seat: &mut Seat,
    request: &Request,
) -> Result<Drawn, Attempt>
    requires seat { IsSeatOf table.now seat.old }
    requires small { All (λ (w : Want). w.number < 2 ^ 58) request.now.wants }
    ensures seat { IsSeatOf table.now seat.new }
    ensures drawn { IfOk result (λ drawn. (drawn.grant ≡ asked_by request.now)
        × IsOneAttempt table.now request.now (Granted drawn.serial) seat.old seat.new) }
    ensures other { IfErr result (λ attempt.
        IsOneAttempt table.now request.now attempt seat.old seat.new) }
    ensures refused { IfErr result (λ attempt. is_granted attempt ≡ false) }
{
    match table.try_reserve(seat, request) {
        Attempt::Granted(serial) => Ok(Drawn {
            serial,
            grant: Grant {
                inter: request.inter,
                wants: request.wants.copy(),
            },
        }),
        other => Err(other),
    }
}
