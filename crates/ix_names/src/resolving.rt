//! The table of a source, or why it has none.

ghost use Rattle.std.specs.Prelude.{◌≡◌, ◌+◌, ◌<◌, ◌^◌, IfOk, IfErr, length};
ghost use Rattle.std.specs.List.{All};
ghost use Rattle.ix_meaning.specs.Few.{DeclaresFewInClass};
ghost use Rattle.ix_symbols.specs.Numbered.{shown};
ghost use Rattle.ix_tree.specs.Parts.{CanResolve};
ghost use Rattle.ix_meaning.specs.Source as source;
ghost use Rattle.ix_meaning.specs.Resolved as spec;

use crate::classes::notes_in;
use crate::counts::limit;
use crate::inheritance::inheritance_limit;
use ix_class_members::world_of;
use ix_meaning::{NameErrors, Note};
use ix_symbols::{Table, errors_of, table_of};
use ix_text::List;
use ix_tree::{ClassDecl, Unit};
use std::alloc::{AllocError, Global};

/// What a source says.
fn notes_of(alloc: Global, decls: &[ClassDecl]) -> Result<List<Note>, AllocError>
    requires { record {
      few : length decls.now < 2 ^ 32;
      members : source.members_in decls.now + 1 < 2 ^ 32;
      each : All DeclaresFewInClass decls.now;
    } }
    ensures { IfOk result (λ notes. notes ≡ source.notes decls.now) }
{
    let (world, parents) = world_of(alloc, decls)?;
    notes_in(alloc, &world, parents.as_slice(), decls)
}

/// The notes of a source without errors; otherwise a limit that is passed, or the errors.
#[tactic(auto, using(ix_meaning::proofs::FewDeclarations::few_classes, ix_meaning::proofs::FewDeclarations::few_members, ix_meaning::proofs::FewDeclarations::each_member_few))]
fn clean_notes(alloc: Global, unit: &Unit) -> Result<List<Note>, NameErrors>
    requires { CanResolve unit.now }
    ensures { record {
      notes : IfOk result (λ notes. notes ≡ source.notes unit.now.classes);
      accepted : IfOk result (λ _. spec.Accepts unit.now);
      refused : IfErr result (λ e. spec.Refuses unit.now e);
    } }
{
    let decls = unit.classes.as_slice();
    if let Some(passed) = limit(decls) {
        return Err(NameErrors::Limit(passed.which, passed.place));
    }
    let Ok(notes) = notes_of(alloc, decls) else {
        return Err(NameErrors::Memory);
    };
    let Ok(errors) = errors_of(alloc, notes.as_slice()) else {
        return Err(NameErrors::Memory);
    };
    if !errors.is_empty() {
        return Err(NameErrors::Errors(errors));
    }
    match inheritance_limit(alloc, decls) {
        Err(_) => Err(NameErrors::Memory),
        Ok(Some(passed)) => Err(NameErrors::Limit(passed.which, passed.place)),
        Ok(None) => Ok(notes),
    }
}

/// The table of what the names of a source mean, of the types of its expressions, and of what its declarations say.
///
/// # Errors
///
/// `Limit` where a count passes its limit: of classes, methods, parameters of a method or claims of a declaration, before any rule is asked;
/// or of classes on a path of inheritance, where no rule is broken. `Errors` with all errors on names, types and annotations, where there is
/// one. `Memory` where memory is wanting.
pub fn resolve(alloc: Global, unit: &Unit) -> Result<Table, NameErrors>
    requires { CanResolve unit.now }
    ensures { record {
      table : IfOk result (λ table. shown table ≡ spec.names unit.now);
      accepted : IfOk result (λ _. spec.Accepts unit.now);
      refused : IfErr result (λ e. spec.Refuses unit.now e);
    } }
{
    let notes = clean_notes(alloc, unit)?;
    match table_of(alloc, notes) {
        Ok(table) => Ok(table),
        Err(_) => Err(NameErrors::Memory),
    }
}
