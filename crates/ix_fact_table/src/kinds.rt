//! The facts of one kind.

ghost use Rattle.std.specs.Prelude.{◌≡◌, IfOk};
ghost use Rattle.ix_core.specs.declared.fact.Fact.{Fact};
ghost use Rattle.ix_facts.specs.Facts.{IsIn};
ghost use Rattle.ix_facts.specs.Kinds.{of_kind};

use ix_core::Fact;
use ix_facts::{Kind, is_of_kind};
use std::alloc::{AllocError, Global};

/// The facts from the first one of the kind on.
pub(crate) fn from_first(kind: Kind, facts: &[Fact]) -> &[Fact]
    ensures same { of_kind kind result.now ≡ of_kind kind facts.now }
    ensures part { (fact : Fact) → IsIn fact result.now → IsIn fact facts.now }
{
    let mut rest = facts;
    while let Some((fact, more)) = rest.split_first() {
        if is_of_kind(kind, fact) {
            return rest;
        }
        rest = more;
    }
    rest
}

/// The facts of the kind, in their order.
pub(crate) fn of_one_kind(
    alloc: Global,
    kind: Kind,
    facts: &[Fact],
) -> Result<Vec<Fact>, AllocError>
    ensures { IfOk result (λ own. own.items ≡ of_kind kind facts.now) }
{
    let mut own = Vec::new(alloc);
    for fact in facts {
        if is_of_kind(kind, fact) {
            own.push(*fact)?;
        }
    }
    Ok(own)
}
