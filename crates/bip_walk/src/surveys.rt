//! Surveys: the walks of many seeds, and their tally.
ghost use Rattle.std.specs.Prelude.{◌≡◌, ◌<◌, ◌^◌, ◌∷◌, Bool, IfOk, [], length};
ghost use Rattle.bip_model.specs.Numbering.{last_number};
ghost use Rattle.bip_walk.specs.Surveys.{IsSurvey};
ghost use Rattle.bip_walk.specs.Tallies.{IsStuckAfter, tally_of};

use crate::tallies::Tally;
use crate::walking::walk;
use bip_model::Number;
use bip_partition::Plan;
use bip_replay::Book;
use std::alloc::{AllocError, Global};

/// The tally of the walks of the seeds from 1 on, so many of them, each of so many grants at most.
/// One walk is kept at a time. The only error is want of memory (docs/DEFINITIONS.md, "Tallies").
pub fn survey(
    alloc: Global,
    plan: &Plan,
    base: Number,
    seeds: u32,
    count: u32,
) -> Result<Tally, AllocError>
    requires { base < last_number }
    ensures { IfOk result (IsSurvey plan.now.model base count 1 seeds) }
{
    let mut tally = Tally::none(plan.model());
    for done in 0..seeds {
        let walked = survey_one(alloc, plan, base, done + 1, count)?;
        tally.join(&walked);
    }
    Ok(tally)
}

// The tally of the walk of one seed.
fn survey_one(
    alloc: Global,
    plan: &Plan,
    base: Number,
    seed: u32,
    count: u32,
) -> Result<Tally, AllocError>
    requires { base < last_number }
    ensures { IfOk result (IsSurvey plan.now.model base count seed 1) }
{
    let book = walk(alloc, plan, base, u64::from(seed), count)?;
    Ok(tally_of_book(&book, seed))
}

/// The tally of the one trace that a book has, as that of a seed: fewer than 2^32 grants.
pub fn tally_of_book(book: &Book<'_>, seed: u32) -> Tally
    requires { length book.now.grants < 2 ^ 32 }
    ensures { (is_stuck : Bool) × IsStuckAfter book.now.model book.now.grants is_stuck
        × (result ≡ tally_of (length book.now.model.interactions)
        (record { seed = seed; grants = book.now.grants; is_stuck = is_stuck } ∷ [])) }
{
    let position = book.position();
    Tally::of(
        position.model(),
        seed,
        book.grants(),
        position.nothing_may_run(),
    )
}
