//! Methods and constructors (JLS 8.4, 8.8).

ghost use Rattle.std.specs.Prelude.{◌≡◌, ◌++◌, ◌+◌, ◌<◌, ◌^◌, length, map, IfOk, OnOk, is_some};
ghost use Rattle.ix_meaning.specs.Few.{DeclaresFew};
ghost use Rattle.ix_tree.specs.declared.decl.Member.TheVariants.{Method};
ghost use Rattle.ix_meaning.specs.Bodies as bodies;
ghost use Rattle.ix_meaning.specs.Members as members;
ghost use Rattle.ix_meaning.specs.Source as spec;
ghost use Rattle.ix_expression_types.specs.Here.{here, need_in};
ghost use Rattle.ix_class_members.specs.World.{shown};
ghost use Rattle.ix_names.specs.Heads as parts;
ghost use Rattle.ix_names.specs.Places.{at};

use crate::body::statements;
use crate::heads::head;
use crate::params::params;
use crate::parents::note_super;
use indexmap::IndexMap;
use ix_class_members::{World, clashes, differs, method_of};
use ix_expression_types::{Scopes, wrong_if};
use ix_meaning::{Note, Rule, Signature};
use ix_symbols::{Need, need_like};
use ix_text::List;
use ix_tree::{ClassDecl, MethodDecl};
use smallvec::SmallVec;
use std::alloc::{AllocError, Global};

fn note_constructor(
    notes: &mut List<Note>,
    world: &World,
    number: u32,
    class: &ClassDecl,
    decl: &MethodDecl,
) -> Result<(), AllocError>
    ensures { OnOk result (notes.new ≡ notes.old ++ spec.constructor_notes (at world.now number class.now) decl.now) }
{
    if !decl.constructor {
        return Ok(());
    }
    let other_name = decl.name.text.as_str() != class.name.text.as_str();
    wrong_if(notes, other_name, Rule::UnknownName, decl.name.span).and(wrong_if(
        notes,
        decl.mods.is_static,
        Rule::NotStatic,
        decl.name.span,
    ))
}

fn note_inherited(
    notes: &mut List<Note>,
    world: &World,
    number: u32,
    class: &ClassDecl,
    m: &Signature,
) -> Result<(), AllocError>
    ensures { OnOk result (notes.new ≡ notes.old ++ spec.inherited_notes (at world.now number class.now) m.now) }
{
    wrong_if(notes, clashes(world, m), Rule::DuplicateName, m.span).and(wrong_if(
        notes,
        differs(world, m),
        Rule::TypeMismatch,
        m.span,
    ))
}

/// The scope of the head.
fn head_scopes<'a>(
    alloc: Global,
    world: &World,
    number: u32,
    m: &Signature,
    decl: &'a MethodDecl,
) -> Result<Scopes<'a>, AllocError>
    requires { length decl.now.params < 2 ^ 32 }
    ensures { record {
      scope : IfOk result (λ scopes. here world.now scopes ≡ parts.head_scope (shown world.now) number m.now decl.now);
      next : IfOk result (λ scopes. scopes.next ≡ 0);
    } }
{
    let has_object = !(m.is_static || m.constructor);
    let params = params(alloc, world, decl.params.as_slice())?;
    Ok(Scopes {
        class: number,
        has_object,
        in_constructor: false,
        in_loop: false,
        names_fields: has_object,
        result: None,
        pending: None,
        params,
        locals: IndexMap::new(alloc),
        marks: SmallVec::new(alloc),
        next: 0,
    })
}

/// What a `return` needs.
fn return_need<'a>(m: &'a Signature, decl: &MethodDecl) -> Option<Need<'a>>
    ensures { need_in result ≡ spec.return_need m.now decl.now.result }
{
    if decl.result.is_none() || m.constructor {
        return None;
    }
    Some(need_like(&m.result))
}

/// Notes the call of the parent's constructor and the body.
fn body<'a>(
    alloc: Global,
    world: &World,
    scopes: &mut Scopes<'a>,
    notes: &mut List<Note>,
    extends: bool,
    m: &'a Signature,
    decl: &'a MethodDecl,
) -> Result<(), AllocError>
    requires { scopes.old.next + (bodies.all_told (map bodies.telling decl.now.body)).declares < 2 ^ 32 }
    ensures { OnOk result (notes.new ≡ notes.old ++ parts.body_notes (parts.in_body (here world.now scopes.old) m.now decl.now) extends decl.now) }
{
    scopes.in_constructor = m.constructor;
    scopes.names_fields = !m.is_static;
    scopes.result = return_need(m, decl);
    scopes.has_object = false;
    note_super(alloc, world, scopes, notes, extends, decl)?;
    scopes.has_object = !m.is_static;
    statements(alloc, world, scopes, notes, decl.body.as_slice())
}

fn with_signature(
    alloc: Global,
    world: &World,
    notes: &mut List<Note>,
    number: u32,
    class: &ClassDecl,
    m: &Signature,
    decl: &MethodDecl,
) -> Result<(), AllocError>
    requires { record {
      params : length decl.now.params < 2 ^ 32;
      locals : (bodies.all_told (map bodies.telling decl.now.body)).declares < 2 ^ 32;
    } }
    ensures { OnOk result (notes.new ≡ notes.old ++ spec.method_notes (at world.now number class.now) m.now decl.now) }
{
    note_constructor(notes, world, number, class, decl)?;
    note_inherited(notes, world, number, class, m)?;
    let mut scopes = head_scopes(alloc, world, number, m, decl)?;
    head(alloc, world, &scopes, notes, m, decl)?;
    body(
        alloc,
        world,
        &mut scopes,
        notes,
        class.parent.is_some(),
        m,
        decl,
    )
}

/// Notes a method or constructor of the class of that number.
#[tactic(auto, using(ix_meaning::proofs::FewDeclarations::few_params, ix_meaning::proofs::FewDeclarations::few_in_body))]
pub fn method(
    alloc: Global,
    world: &World,
    notes: &mut List<Note>,
    number: u32,
    class: &ClassDecl,
    decl: &MethodDecl,
) -> Result<(), AllocError>
    requires { DeclaresFew (Method decl.now) }
    ensures { OnOk result (notes.new ≡ notes.old ++ spec.method_notes (at world.now number class.now) (members.signature (shown world.now).class number decl.now) decl.now) }
{
    let m = method_of(alloc, &world.table, number, decl)?;
    with_signature(alloc, world, notes, number, class, &m, decl)
}
