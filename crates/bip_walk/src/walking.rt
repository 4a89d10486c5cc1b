//! Walks: grants that are drawn one after another from the model's start.
ghost use Rattle.std.specs.Prelude.{◌≡◌, ◌<◌, IfOk, OnOk};
ghost use Rattle.bip_model.specs.Numbering.{last_number};
ghost use Rattle.bip_walk.specs.Walking.{TellDrawableOf, IsBookOfWalk, WalksOn};

use crate::chance::generator_of;
use crate::choices::{Choices, drawable, grant_of, renew};
use bip_model::{MOST_INTERACTIONS, Number};
use bip_partition::Plan;
use bip_replay::Book;
use rand_core::utils::NextWord;
use rand_pcg::Lcg64Xsh32;
use std::alloc::{AllocError, Global};

/// The walk of a seed: a run of the model itself above a base, each of whose grants is drawn among
/// those that can be next. It has so many grants, or fewer where nothing can be drawn. The only
/// error is want of memory (docs/DEFINITIONS.md, "Walks").
pub fn walk<'p>(
    alloc: Global,
    plan: &'p Plan,
    base: Number,
    seed: u64,
    count: u32,
) -> Result<Book<'p>, AllocError>
    requires { base < last_number }
    ensures { IfOk result (IsBookOfWalk plan.now.model base seed count) }
{
    let mut book = Book::start(alloc, plan.model(), base)?;
    let mut words = generator_of(seed);
    let mut choices = [false; MOST_INTERACTIONS];
    renew(&mut choices, book.position(), plan, None);
    for _ in 0..count {
        if !go_on(&mut book, plan, &mut choices, &mut words)? {
            return Ok(book);
        }
    }
    Ok(book)
}

/// Goes on by the grant of the next word, where there is one, among the choices that there are; and
/// leaves those that are behind it.
fn go_on(
    book: &mut Book<'_>,
    plan: &Plan,
    choices: &mut Choices,
    words: &mut Lcg64Xsh32,
) -> Result<bool, AllocError>
    requires model { book.old.model ≡ plan.now.model }
    requires choices { TellDrawableOf book.old choices.old }
    ensures walks { WalksOn book.old words.old result book.new words.new }
    ensures choices { OnOk result (TellDrawableOf book.new choices.new) }
{
    let list = drawable(plan, choices);
    if list.is_empty() {
        return Ok(false);
    }
    let word = words.next_word() as usize;
    let inter = list.as_slice()[word % list.len()];
    let grant = grant_of(book.position(), plan, inter);
    book.push(grant)?;
    renew(choices, book.position(), plan, Some(inter));
    Ok(true)
}
