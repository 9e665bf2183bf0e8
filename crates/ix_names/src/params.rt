//! Parameters (JLS 8.4.1).

ghost use Rattle.std.specs.Prelude.{◌≡◌, ◌++◌, ◌<◌, ◌^◌, [], length, map, IfOk, OnOk};
ghost use Rattle.ix_meaning.specs.Source as spec;
ghost use Rattle.ix_expression_types.specs.Here.{here, param_known};
ghost use Rattle.ix_class_members.specs.World.{shown};
ghost use Rattle.ix_names.specs.Declarations as parts;

use ix_class_members::{Declaration, World, of_variable, own_annotations, param_type, variable};
use ix_core::Name;
use ix_expression_types::{InAnnotation, Param, Scopes, note_declared, wrong_if};
use ix_meaning::{Note, Rule};
use ix_text::List;
use ix_tree::LocalDecl;
use std::alloc::{AllocError, Global};

/// The parameters in scope, in their order.
pub fn params<'a>(
    alloc: Global,
    world: &World,
    decls: &'a [LocalDecl],
) -> Result<List<Param<'a>>, AllocError>
    requires { length decls.now < 2 ^ 32 }
    ensures { IfOk result (λ params. map param_known params ≡ parts.params_from (shown world.now) 0 decls.now) }
{
    let mut params = List::new(alloc);
    for (k, decl) in decls.iter().enumerate() {
        params.push(Param {
            name: decl.name.text.as_str(),
            number: k as u32,
            ty: param_type(alloc, &world.table, decl)?,
            is_final: decl.mods.get().is_final,
        })?;
    }
    Ok(params)
}

fn is_named_in(decls: &[LocalDecl], name: &str) -> bool
    ensures { result ≡ spec.is_named_in decls.now name.now }
{
    for decl in decls {
        if decl.name.text.as_str() == name {
            return true;
        }
    }
    false
}

fn param_declaration<'p>(
    alloc: Global,
    world: &'p World,
    scopes: &'p Scopes<'_>,
    notes: &mut List<Note>,
    number: u32,
    decl: &LocalDecl,
) -> Result<Declaration, AllocError>
    ensures { record {
      ty : IfOk result (λ d. d.ty ≡ (parts.param_declaration (here world.now scopes.now) number decl.now).ty);
      claims : IfOk result (λ d. d.claims ≡ (parts.param_declaration (here world.now scopes.now) number decl.now).claims);
      notes : OnOk result (notes.new ≡ notes.old ++ (parts.param_declaration (here world.now scopes.now) number decl.now).notes);
    } }
{
    let names = InAnnotation {
        world,
        scopes,
        own: Some(Name::Param(number)),
        own_local: None,
    };
    let own = own_annotations(alloc, decl)?;
    variable(
        alloc,
        &world.table,
        notes,
        &names,
        own.before.as_slice(),
        own.behind.as_slice(),
        decl.ty.get(),
    )
}

fn param(
    alloc: Global,
    world: &World,
    scopes: &Scopes<'_>,
    notes: &mut List<Note>,
    before: &[LocalDecl],
    number: u32,
    decl: &LocalDecl,
) -> Result<(), AllocError>
    ensures { OnOk result (notes.new ≡ notes.old ++ parts.param_notes (here world.now scopes.now) before.now number decl.now) }
{
    let span = decl.name.span;
    let taken = is_named_in(before, decl.name.text.as_str());
    wrong_if(notes, taken, Rule::DuplicateName, span)?;
    let Declaration { ty, claims } = param_declaration(alloc, world, scopes, notes, number, decl)?;
    note_declared(alloc, notes, span, &ty, of_variable(alloc, claims))
}

/// Notes the parameters.
pub fn note_params(
    alloc: Global,
    world: &World,
    scopes: &Scopes<'_>,
    notes: &mut List<Note>,
    decls: &[LocalDecl],
) -> Result<(), AllocError>
    requires { length decls.now < 2 ^ 32 }
    ensures { OnOk result (notes.new ≡ notes.old ++ parts.params_notes (here world.now scopes.now) [] 0 decls.now) }
{
    for (k, decl) in decls.iter().enumerate() {
        param(alloc, world, scopes, notes, &decls[..k], k as u32, decl)?;
    }
    Ok(())
}
