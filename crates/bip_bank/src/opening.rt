//! How a bank begins: the table of a plan before any grant, and no open request.
ghost use Rattle.std.specs.Prelude.{◌≡◌, ◌<◌, [], IfOk, map, replicate};
ghost use Rattle.bip_model.specs.Numbering.{last_number};
ghost use Rattle.bip_bank.specs.Opening.{IsListTabled, IsOpening};

use crate::Queue;
use bip_model::{CompId, Number, Request, Seq};
use bip_partition::Plan;
use bip_table::Table;
use std::alloc::{AllocError, Global};

/// The table of a plan at the start: a row of each component that has one, whose floor and used
/// number are the base.
pub fn first_table(alloc: Global, plan: &Plan, base: Number) -> Result<Table, AllocError>
    requires { base < last_number }
    ensures { IfOk result (IsOpening plan.now base) }
{
    let tabled = list_tabled(alloc, plan)?;
    let entries = numbered(alloc, tabled.as_slice(), base)?;
    Table::new(alloc, &entries, 0)
}

/// The components with a row in the table, by number.
fn list_tabled(alloc: Global, plan: &Plan) -> Result<Seq<CompId>, AllocError>
    ensures { IfOk result (IsListTabled plan.now) }
{
    let mut list = Seq::of(Vec::new(alloc));
    for number in 0..plan.model().components().len() {
        let comp = CompId(number as u16);
        if plan.tabled(comp) {
            list.push(comp)?;
        }
    }
    Ok(list)
}

/// Each of these components with a number.
pub fn numbered(
    alloc: Global,
    comps: &[CompId],
    number: Number,
) -> Result<Vec<(CompId, Number)>, AllocError>
    ensures { IfOk result (λ entries. entries.items ≡ map (λ c. (c, number)) comps.now) }
{
    comps.iter().map(|comp| (*comp, number)).collect(alloc)
}

/// So many queues without requests.
pub fn no_requests(alloc: Global, count: usize) -> Result<Vec<Queue<Request>>, AllocError>
    ensures { IfOk result (λ queues. queues.items ≡ replicate count []) }
{
    let mut queues = Vec::new(alloc);
    for _ in 0..count {
        queues.push(Queue::new(alloc))?;
    }
    Ok(queues)
}
