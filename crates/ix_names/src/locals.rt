//! The declarations of locals (JLS 14.4).

ghost use Rattle.std.specs.Prelude.{◌≡◌, ◌++◌, ◌∷◌, [], None, ◌+◌, ◌<◌, ◌^◌, if◌then◌else◌, is_some, IfOk, OnOk};
ghost use Rattle.ix_meaning.specs.Annotated as claimed;
ghost use Rattle.ix_meaning.specs.Bodies as spec;
ghost use Rattle.ix_meaning.specs.Rules.{duplicate_name};
ghost use Rattle.ix_meaning.specs.Scope.{meant};
ghost use Rattle.indexmap.specs.IndexMap.{get_by_text};
ghost use Rattle.ix_names.specs.Added.{AddsLast};
ghost use Rattle.ix_class_members.specs.Begun.{annotated};
ghost use Rattle.ix_expression_types.specs.Here.{here, names, local_known_as, Extends};

use indexmap::IndexMap;
use ix_class_members::{Annotations, Declaration, World, of_variable, variable};
use ix_core::{Claim, Name, Type_};
use ix_expression_types::{InAnnotation, Local, Scopes, fill, note_declared, wrong_if};
use ix_meaning::{Note, Rule};
use ix_text::List;
use ix_tree::{Ident, Init, LocalDecl};
use std::alloc::{AllocError, Global};

/// What fills a variable of that type.
pub fn initialiser(
    alloc: Global,
    world: &World,
    scopes: &Scopes<'_>,
    notes: &mut List<Note>,
    init: &Option<Init>,
    ty: &Option<Type_>,
) -> Result<(), AllocError>
    ensures { OnOk result (notes.new ≡ notes.old ++ spec.init_notes init.now (here world.now scopes.now) ty.now) }
{
    match init {
        None => Ok(()),
        Some(init) => fill(alloc, world, scopes, notes, init, ty),
    }
}

fn local_declaration(
    alloc: Global,
    world: &World,
    scopes: &Scopes<'_>,
    notes: &mut List<Note>,
    own: &Annotations<'_>,
    decl: &LocalDecl,
) -> Result<Declaration, AllocError>
    ensures { record {
      ty : IfOk result (λ d. d.ty ≡ (spec.local_declaration (annotated own.now decl.now) (here world.now scopes.now)).ty);
      claims : IfOk result (λ d. d.claims ≡ (spec.local_declaration (annotated own.now decl.now) (here world.now scopes.now)).claims);
      notes : OnOk result (notes.new ≡ notes.old ++ (spec.local_declaration (annotated own.now decl.now) (here world.now scopes.now)).notes);
    } }
{
    let names = InAnnotation {
        world,
        scopes,
        own: Some(Name::Local(scopes.next)),
        own_local: Some(decl.name.text.as_str()),
    };
    variable(
        alloc,
        &world.table,
        notes,
        &names,
        own.before.as_slice(),
        own.behind.as_slice(),
        decl.ty.get(),
    )
}

/// Keeps a local by its name, which no other has.
fn insert(
    alloc: Global,
    locals: &mut IndexMap<String, Local>,
    name: &str,
    local: Local,
) -> Result<(), AllocError>
    requires { get_by_text locals.old name.now ≡ None }
    ensures { OnOk result (AddsLast locals.old.entries locals.new.entries name.now local) }
{
    let key = String::from_str(alloc, name)?;
    locals.insert(key, local)?;
    Ok(())
}

/// Brings a local in scope. Of two with one name the first stays the one that is meant.
#[tactic(auto, using(crate::proofs::NewLocals::unknown_local, crate::proofs::NewLocals::one_more_name))]
fn bind(alloc: Global, scopes: &mut Scopes<'_>, name: &str, local: Local) -> Result<(), AllocError>
    ensures { record {
      names : OnOk result (names scopes.new ≡ (if is_some (meant name.now (names scopes.old)) then names scopes.old else names scopes.old ++ local_known_as name.now local ∷ []));
      keeps : OnOk result (Extends scopes.old scopes.new);
      next : scopes.new.next ≡ scopes.old.next;
      class : scopes.new.class ≡ scopes.old.class;
      has_object : scopes.new.has_object ≡ scopes.old.has_object;
      in_constructor : scopes.new.in_constructor ≡ scopes.old.in_constructor;
      in_loop : scopes.new.in_loop ≡ scopes.old.in_loop;
      names_fields : scopes.new.names_fields ≡ scopes.old.names_fields;
      result : scopes.new.result ≡ scopes.old.result;
      pending : scopes.new.pending ≡ scopes.old.pending;
    } }
{
    if scopes.meant(name).is_some() {
        return Ok(());
    }
    insert(alloc, &mut scopes.locals, name, local)
}

/// Notes what a declarator says before its initialiser.
fn note_local(
    alloc: Global,
    world: &World,
    scopes: &Scopes<'_>,
    notes: &mut List<Note>,
    name: &Ident,
    ty: &Option<Type_>,
    claims: List<Claim>,
) -> Result<(), AllocError>
    ensures { OnOk result (notes.new ≡ notes.old ++ (duplicate_name (spec.is_taken (here world.now scopes.now) name.now) name.now.span ++ spec.declares_note name.now.span ty.now (claimed.of_variable claims))) }
{
    let is_taken = scopes.meant(name.text.as_str()).is_some();
    wrong_if(notes, is_taken, Rule::DuplicateName, name.span).and(note_declared(
        alloc,
        notes,
        name.span,
        ty,
        of_variable(alloc, claims),
    ))
}

/// A declarator with its annotations: its type, its claims, its initialiser, and then its name in scope.
pub fn declare<'a>(
    alloc: Global,
    world: &World,
    scopes: &mut Scopes<'a>,
    notes: &mut List<Note>,
    own: &Annotations<'_>,
    decl: &'a LocalDecl,
) -> Result<(), AllocError>
    requires { scopes.old.next + 1 < 2 ^ 32 }
    ensures { record {
      notes : OnOk result (notes.new ≡ notes.old ++ (spec.declared (annotated own.now decl.now)).notes (here world.now scopes.old));
      scope : OnOk result (here world.now scopes.new ≡ spec.after (spec.declared (annotated own.now decl.now)) (here world.now scopes.old));
      keeps : OnOk result (Extends scopes.old scopes.new);
    } }
{
    let Declaration { ty, claims } = local_declaration(alloc, world, scopes, notes, own, decl)?;
    let noted = note_local(alloc, world, scopes, notes, &decl.name, &ty, claims);
    let name = decl.name.text.as_str();
    let outside = scopes.pending;
    scopes.pending = Some(name);
    let filled = initialiser(alloc, world, scopes, notes, &decl.init, &ty);
    scopes.pending = outside;
    let is_fixed = decl.mods.get().is_final && decl.init.is_some();
    let number = scopes.next;
    scopes.next = number + 1;
    noted.and(filled).and(bind(
        alloc,
        scopes,
        name,
        Local {
            number,
            ty,
            is_fixed,
        },
    ))
}
