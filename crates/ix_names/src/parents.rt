//! Calls of the parent's constructor (JLS 8.8.7).

ghost use Rattle.std.specs.Prelude.{◌≡◌, ◌++◌, OnOk};
ghost use Rattle.ix_meaning.specs.Source as spec;
ghost use Rattle.ix_expression_types.specs.Here.{here};
ghost use Rattle.ix_class_members.specs.World.{shown};
ghost use Rattle.ix_names.specs.Parents as parts;

use ix_class_members::World;
use ix_expression_types::{Scopes, arguments, given_to, wrong_if};
use ix_meaning::{Note, Rule};
use ix_text::{List, Span};
use ix_tree::{Expr, MethodDecl};
use std::alloc::{AllocError, Global};

/// A call of the parent's constructor without arguments.
pub fn implicit_super(
    world: &World,
    notes: &mut List<Note>,
    class: u32,
    at: Span,
) -> Result<(), AllocError>
    ensures { OnOk result (notes.new ≡ notes.old ++ spec.implicit_super_of (shown world.now) ((shown world.now).parent class) at) }
{
    match world.parent(class) {
        None => Ok(()),
        Some(parent) => {
            let has_params = world.constructor_params(parent).len() != 0;
            wrong_if(notes, has_params, Rule::WrongArguments, at)
        }
    }
}

/// A call of the parent's constructor with these arguments.
fn super_args(
    alloc: Global,
    world: &World,
    scopes: &Scopes<'_>,
    notes: &mut List<Note>,
    extends: bool,
    args: &[Expr],
    at: Span,
) -> Result<(), AllocError>
    ensures { OnOk result (notes.new ≡ notes.old ++ parts.super_args (here world.now scopes.now) extends args.now ((shown world.now).parent scopes.now.class) at) }
{
    match world.parent(scopes.class) {
        Some(parent) => {
            let params = world.constructor_params(parent);
            given_to(alloc, world, scopes, notes, args, params, at)
        }
        None => {
            if extends {
                arguments(alloc, world, scopes, notes, args, &[])
            } else {
                given_to(alloc, world, scopes, notes, args, &[], at)
            }
        }
    }
}

/// The call of the parent's constructor in a constructor, in which there is no object yet.
pub fn note_super(
    alloc: Global,
    world: &World,
    scopes: &Scopes<'_>,
    notes: &mut List<Note>,
    extends: bool,
    decl: &MethodDecl,
) -> Result<(), AllocError>
    ensures { OnOk result (notes.new ≡ notes.old ++ parts.super_notes (here world.now scopes.now) extends decl.now) }
{
    if !decl.constructor {
        return Ok(());
    }
    match &decl.parent_args {
        None => implicit_super(world, notes, scopes.class, decl.name.span),
        Some(args) => super_args(
            alloc,
            world,
            scopes,
            notes,
            extends,
            args.as_slice(),
            decl.name.span,
        ),
    }
}
