//! Facts in all their orders.

ghost use Rattle.std.specs.Prelude.{◌≡◌, IsTrue, IfOk};
ghost use Rattle.ix_facts.specs.Facts.{in_orders};
ghost use Rattle.ix_store.specs.Orders.{ordered_by};

use ix_core::Fact;
use ix_fact_paths::{have_one_order, in_all_orders};
use ix_fact_table::Row;
use std::alloc::{AllocError, Global};

/// Up to how many facts a list keeps the room that it was made in: to copy it takes more time than that room is worth.
const SHORT: usize = 128;

/// The facts in no more room than they take, unless they are few.
fn trimmed(alloc: Global, facts: Vec<Fact>) -> Result<Vec<Fact>, AllocError>
    ensures { IfOk result (λ trimmed. trimmed.items ≡ facts.items) }
{
    if facts.len() <= SHORT {
        return Ok(facts);
    }
    Vec::from_slice(alloc, &facts)
}

/// The facts in all their orders as a list, where some have two; none where each has one, so that they are such a list themselves. It looks at them unless it is told that
/// each has one. The only error is want of memory.
pub(crate) fn orders_beside(
    alloc: Global,
    facts: &[Fact],
    plain: bool,
) -> Result<Option<Row>, AllocError>
    requires plain { IsTrue plain → in_orders facts.now ≡ facts.now }
    ensures { IfOk result (λ turned. ordered_by facts.now turned ≡ in_orders facts.now) }
{
    if plain || have_one_order(facts) {
        return Ok(None);
    }
    let all = trimmed(alloc, in_all_orders(alloc, facts)?)?;
    Ok(Some(Row::of(all)))
}

/// The facts in all their orders. It takes no memory.
pub(crate) fn ordered<'a>(facts: &'a [Fact], turned: &'a Option<Row>) -> &'a [Fact]
    ensures { result.now ≡ ordered_by facts.now turned.now }
{
    match turned {
        Some(orders) => orders.as_slice(),
        None => facts,
    }
}
