//! How many classes stand on a path of inheritance.

ghost use Rattle.std.specs.Prelude.{◌≡◌, ◌<◌, ◌^◌, length, option_map, IfOk};
ghost use Rattle.ix_meaning.specs.Limits as spec;
ghost use Rattle.ix_names.specs.Shown.{shown};

use crate::passed::{Passed, passed_at};
use ix_meaning::Which;
use ix_symbols::{class_table, parents, supers};
use ix_tree::ClassDecl;
use std::alloc::{AllocError, Global};

const MOST_INHERITED: usize = 32;

fn inheritance_passed(
    alloc: Global,
    parents: &[Option<u32>],
    classes: &[ClassDecl],
) -> Result<Option<Passed>, AllocError>
    requires { length classes.now < 2 ^ 32 }
    ensures { IfOk result (λ passed. option_map shown passed ≡ spec.past_inheritance parents.now 0 classes.now) }
{
    for (i, class) in classes.iter().enumerate() {
        let supers = supers(alloc, parents, i as u32)?;
        if supers.len() >= MOST_INHERITED {
            return Ok(Some(passed_at(Which::Inheritance, &class.name)));
        }
    }
    Ok(None)
}

/// The first class that with its superclasses makes more classes than may stand on a path of inheritance. None where there is none.
pub fn inheritance_limit(alloc: Global, classes: &[ClassDecl]) -> Result<Option<Passed>, AllocError>
    requires { length classes.now < 2 ^ 32 }
    ensures { IfOk result (λ passed. option_map shown passed ≡ spec.inheritance_limit classes.now) }
{
    let table = class_table(alloc, classes)?;
    let parents = parents(alloc, &table, classes)?;
    inheritance_passed(alloc, parents.as_slice(), classes)
}
