//! What is known at the entry of a method.

ghost use Rattle.std.specs.Prelude.{◌≡◌, IfOk};
ghost use Rattle.ix_signatures.specs.Naming.{HasSmallNames};
ghost use Rattle.ix_signatures.specs.Signs as signs;

use crate::facts::{push_params, push_received_params, push_zero_fields};
use ix_core::{Fact, Method, Program, fields_of, parent_of};
use std::alloc::{AllocError, Global};

/// What is known at the entry of a method: what the claims of its parameters say; in a constructor without parent the fields are 0 or null (JLS 12.5). The only error is want of memory.
pub fn entry_facts(
    alloc: Global,
    program: &Program,
    method: &Method,
) -> Result<Vec<Fact>, AllocError>
    requires small { HasSmallNames method.now }
    ensures { IfOk result (λ facts. facts.items ≡ signs.entry_facts program.now method.now) }
{
    let mut facts = Vec::new(alloc);
    push_received_params(&mut facts, method).and(push_params(&mut facts, method))?;
    if method.constructor && parent_of(program, method.class).is_none() {
        push_zero_fields(&mut facts, program, fields_of(program, method.class))?;
    }
    Ok(facts)
}
