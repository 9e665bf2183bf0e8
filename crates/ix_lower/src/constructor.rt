//! What a constructor begins with.
ghost use Rattle.std.specs.Prelude.{◌≡◌, [], Ok, Err, IfOk, OnOk, IsErrOf};
ghost use Rattle.ix_meaning.specs.declared.note.Which.{Which};
ghost use Rattle.ix_plain.specs.declared.made.Stop.TheVariants as stop;
ghost use Rattle.ix_plain.specs.Assigned.{all_assign};
ghost use Rattle.ix_plain.specs.Program as spec;
ghost use Rattle.ix_plain.specs.Statements.{assigned_by};
ghost use Rattle.ix_lower_expressions.specs.Shown.{shown_site};
ghost use Rattle.ix_lower.specs.Homes.{shown_home};

use crate::home::Home;
use crate::number::next_field;
use ix_core::{OpKind, Type_};
use ix_lower_expressions::{
    Scope, Site, add_all, arguments, assign, call_op, compute, constructor_at,
};
use ix_lower_statements::{declared_type, evaluate_init, init_span};
use ix_plain::{Body, Spot, Stop};
use ix_text::{List, Span};
use ix_tree::{Expr, LocalDecl, Member};
use std::alloc::{AllocError, Global};

fn assigned_by_all(
    alloc: Global,
    site: &Site<'_>,
    args: &[Expr],
    body: &Body,
) -> Result<List<u32>, AllocError>
    ensures { IfOk result (λ slots. slots ≡ assigned_by (shown_site site.now) body.now (all_assign args.now)) }
{
    let mut assigned = List::new(alloc);
    let scope = Scope {
        site: *site,
        locals: body.locals.as_slice(),
        assigned: &[],
    };
    add_all(&scope, args, &mut assigned).and(Ok(assigned))
}

/// Calls the parent's constructor on the same object.
fn call_parent(
    alloc: Global,
    site: &Site<'_>,
    parent: u32,
    args: &[Expr],
    span: Span,
    body: &mut Body,
) -> Result<(), Stop>
    ensures { record {
      limit : (which : Which) → IsErrOf result (stop.Limit which) → spec.parent_call (shown_site site.now) parent args.now span body.old ≡ Err which;
      body : OnOk result (spec.parent_call (shown_site site.now) parent args.now span body.old ≡ Ok body.new);
    } }
{
    let assigned = assigned_by_all(alloc, site, args, body)?;
    let top = body.made.free;
    let scope = Scope {
        site: *site,
        locals: body.locals.as_slice(),
        assigned: assigned.as_slice(),
    };
    let args = arguments(alloc, &scope, args, &mut body.made)?;
    let method = constructor_at(site, parent);
    let call = call_op(body.made.free, method, Some(0), args, parent, span);
    let called = compute(alloc, &mut body.made, OpKind::SuperCall(call), span);
    body.most = body.most.max(body.made.free);
    body.made.free = top;
    called.and(Ok(()))
}

fn super_call(
    alloc: Global,
    site: &Site<'_>,
    parent: Option<u32>,
    args: &[Expr],
    span: Span,
    body: &mut Body,
) -> Result<(), Stop>
    ensures { record {
      limit : (which : Which) → IsErrOf result (stop.Limit which) → spec.super_call (shown_site site.now) parent args.now span body.old ≡ Err which;
      body : OnOk result (spec.super_call (shown_site site.now) parent args.now span body.old ≡ Ok body.new);
    } }
{
    match parent {
        None => Ok(()),
        Some(parent) => call_parent(alloc, site, parent, args, span, body),
    }
}

/// Runs the initialiser of a field, where there is one.
fn initialise(
    alloc: Global,
    site: &Site<'_>,
    field: u32,
    decl: &LocalDecl,
    body: &mut Body,
) -> Result<(), Stop>
    ensures { record {
      limit : (which : Which) → IsErrOf result (stop.Limit which) → spec.field_initialised (shown_site site.now) field decl.now decl.now.init body.old ≡ Err which;
      body : OnOk result (spec.field_initialised (shown_site site.now) field decl.now decl.now.init body.old ≡ Ok body.new);
    } }
{
    match &decl.init {
        None => Ok(()),
        Some(init) => {
            let ty = declared_type(alloc, site, decl.name.span)?;
            let value = evaluate_init(alloc, site, init, &ty, body)?;
            let spans = (init_span(init), decl.name.span, init_span(init));
            let spot = Spot::FieldOf(0, field);
            assign(alloc, spot, value, Type_::Void, spans, &mut body.made).map_err(Stop::from)
        }
    }
}

fn initialise_member(
    alloc: Global,
    site: &Site<'_>,
    field: u32,
    decl: &LocalDecl,
    body: &mut Body,
) -> Result<(), Stop>
    ensures { record {
      limit : (which : Which) → IsErrOf result (stop.Limit which) → spec.member_initialised (shown_site site.now) field decl.now body.old ≡ Err which;
      body : OnOk result (spec.member_initialised (shown_site site.now) field decl.now body.old ≡ Ok body.new);
    } }
{
    if decl.mods.get().is_static {
        return Ok(());
    }
    initialise(alloc, site, field, decl, body)
}

/// Runs the initialisers of fields in the order of the text.
fn initialise_all(
    alloc: Global,
    site: &Site<'_>,
    first: u32,
    members: &[Member],
    body: &mut Body,
) -> Result<(), Stop>
    ensures { record {
      limit : (which : Which) → IsErrOf result (stop.Limit which) → spec.fields_initialised (shown_site site.now) first members.now body.old ≡ Err which;
      body : OnOk result (spec.fields_initialised (shown_site site.now) first members.now body.old ≡ Ok body.new);
    } }
{
    let mut field = first;
    for member in members {
        if let Member::Field(decl) = member {
            initialise_member(alloc, site, field, decl, body)?;
            field = next_field(field, decl);
        }
    }
    Ok(())
}

/// Calls the parent's constructor, and then runs the initialisers of fields (JLS 12.5).
pub fn begin_constructor(
    alloc: Global,
    site: &Site<'_>,
    home: &Home<'_>,
    args: &[Expr],
    span: Span,
    body: &mut Body,
) -> Result<(), Stop>
    ensures { record {
      limit : (which : Which) → IsErrOf result (stop.Limit which) → spec.constructor_start (shown_site site.now) (shown_home home.now) args.now span body.old ≡ Err which;
      body : OnOk result (spec.constructor_start (shown_site site.now) (shown_home home.now) args.now span body.old ≡ Ok body.new);
    } }
{
    super_call(alloc, site, home.parent, args, span, body).and(initialise_all(
        alloc,
        site,
        home.field,
        home.members,
        body,
    ))
}
