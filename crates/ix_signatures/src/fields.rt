//! What is known of an object where its fields are read and written.

ghost use Rattle.std.specs.Prelude.{◌≡◌, ◌&&◌, ◌==◌, not, IfOk};
ghost use Rattle.ix_facts.specs.Exact.{if_so};
ghost use Rattle.ix_signatures.specs.Names as names;
ghost use Rattle.ix_signatures.specs.Naming.{HaveSmallNames};
ghost use Rattle.ix_signatures.specs.Signs.{read_facts, write_facts};
ghost use Rattle.ix_signatures.specs.Spared as spared;

use crate::dependent::push_dependents;
use crate::facts::{claims_of, push_claims};
use crate::naming::Naming;
use ix_core::{Fact, Method, Path, Program};
use std::alloc::{AllocError, Global};

/// Whether the object in the slot is built: it isn't `this` of a constructor.
pub fn is_built(within: &Method, object: u32) -> bool
    ensures { result ≡ names.is_built within.now object }
{
    !(within.constructor && object == 0)
}

/// The slot that is spared: that of `this`, or none.
pub fn this_if(test: bool) -> Option<u32>
    ensures { result ≡ spared.this_if test }
{
    if test { Some(0) } else { None }
}

/// The slot that a write through the object's slot spares.
pub fn spared_at_write(within: &Method, object: u32) -> Option<u32>
    ensures { result ≡ spared.this_if (within.now.constructor && not (object == 0)) }
{
    this_if(within.constructor && object != 0)
}

/// What is known of a built object before its field is read. The only error is want of memory.
pub fn facts_at_read(
    alloc: Global,
    program: &Program,
    within: &Method,
    object: u32,
    field: u32,
) -> Result<Vec<Fact>, AllocError>
    requires small { HaveSmallNames program.now }
    ensures { IfOk result (λ facts. facts.items ≡ if_so (names.is_built within.now object) (read_facts program.now object field)) }
{
    let mut facts = Vec::new(alloc);
    if is_built(within, object) {
        let at = Path::FieldOf(object, field);
        push_claims(
            &mut facts,
            &Naming::OfObject(object),
            &at,
            claims_of(program, field),
        )?;
    }
    Ok(facts)
}

/// What is known of a built object before its field is written. The only error is want of memory.
pub fn facts_at_write(
    alloc: Global,
    program: &Program,
    within: &Method,
    object: u32,
    field: u32,
) -> Result<Vec<Fact>, AllocError>
    requires small { HaveSmallNames program.now }
    ensures { IfOk result (λ facts. facts.items ≡ if_so (names.is_built within.now object) (write_facts program.now object field)) }
{
    let mut facts = Vec::new(alloc);
    if is_built(within, object) {
        let at = Path::FieldOf(object, field);
        push_claims(
            &mut facts,
            &Naming::OfObject(object),
            &at,
            claims_of(program, field),
        )
        .and(push_dependents(&mut facts, program, object, field))?;
    }
    Ok(facts)
}
