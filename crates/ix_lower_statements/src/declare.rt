//! Declarations of locals.
ghost use Rattle.std.specs.Prelude.{◌≡◌, ◌++◌, ◌∷◌, [], Ok, Err, List as Elements, IfOk, OnOk, IsErrOf};
ghost use Rattle.ix_meaning.specs.declared.note.Which.{Which};
ghost use Rattle.ix_plain.specs.declared.made.Stop.TheVariants as stop;
ghost use Rattle.ix_plain.specs.Parts.{default};
ghost use Rattle.ix_plain.specs.Scope as scope;
ghost use Rattle.ix_plain.specs.Statements as spec;
ghost use Rattle.ix_plain.specs.Values.{filling};
ghost use Rattle.ix_lower_expressions.specs.Shown.{shown_site};

use crate::full::{copied_text, evaluate_init};
use ix_core::{Base, Claim, Literal, Local, OpKind, Type_};
use ix_lower_expressions::{MOST_SLOTS, Site, assign, compute, copied_claims};
use ix_meaning::Which;
use ix_plain::{Body, Spot, Stop};
use ix_symbols::copied;
use ix_text::{List, Span};
use ix_tree::{Ident, Init, LocalDecl};
use std::alloc::{AllocError, Global};

/// The type of what is declared at that place.
pub fn declared_type(alloc: Global, site: &Site<'_>, span: Span) -> Result<Type_, AllocError>
    ensures { IfOk result (λ ty. ty ≡ scope.declared_type ((shown_site site.now).names.declared span)) }
{
    match site.table.declared(span) {
        Some(declared) => copied(alloc, &declared.ty),
        None => Ok(Type_::Void),
    }
}

/// The claims of what is declared at that place.
fn declared_claims(alloc: Global, site: &Site<'_>, span: Span) -> Result<List<Claim>, AllocError>
    ensures { IfOk result (λ claims. claims ≡ scope.declared_claims ((shown_site site.now).names.declared span)) }
{
    match site.table.declared(span) {
        Some(declared) => copied_claims(alloc, declared.claims.list.as_slice()),
        None => Ok(List::new(alloc)),
    }
}

fn default_of(alloc: Global, ty: &Type_) -> Result<Literal, AllocError>
    ensures { IfOk result (λ literal. literal ≡ default ty.now) }
{
    match ty {
        Type_::Plain(Base::Int) => Ok(Literal::Int(0)),
        Type_::Plain(Base::Bool) => Ok(Literal::Bool(false)),
        _ => {
            let ty = copied(alloc, ty)?;
            Ok(Literal::NullOf(ty))
        }
    }
}

/// The type of the value of an initialiser of a variable of that type.
fn value_type(alloc: Global, site: &Site<'_>, init: &Init, ty: &Type_) -> Result<Type_, AllocError>
    ensures { IfOk result (λ value. value ≡ (filling init.now).ty (shown_site site.now) ty.now) }
{
    match init {
        Init::Value(expr) => match site.table.type_of(expr.span) {
            Some(ty) => copied(alloc, ty),
            None => Ok(Type_::Void),
        },
        Init::Items(_, _) => copied(alloc, ty),
    }
}

/// The place of an initialiser.
pub fn init_span(init: &Init) -> Span
    ensures { result ≡ (filling init.now).span }
{
    match init {
        Init::Value(expr) => expr.span,
        Init::Items(_, span) => *span,
    }
}

fn push_local(locals: &mut List<(Local, Span)>, local: Local, span: Span) -> Result<(), AllocError>
    ensures { OnOk result (locals.new ≡ locals.old ++ (local, span) ∷ []) }
{
    locals.push((local, span)).map_err(AllocError::from)
}

/// A local takes the first free slot.
fn declare(
    alloc: Global,
    site: &Site<'_>,
    name: &Ident,
    end: u32,
    body: &mut Body,
) -> Result<(), Stop>
    ensures { record {
      limit : (which : Which) → IsErrOf result (stop.Limit which) → spec.with_local name.now end (shown_site site.now) body.old ≡ Err which;
      body : OnOk result (spec.with_local name.now end (shown_site site.now) body.old ≡ Ok body.new);
    } }
{
    let slot = body.made.free;
    if slot >= MOST_SLOTS {
        return Err(Stop::Limit(Which::Slots));
    }
    let claims = declared_claims(alloc, site, name.span)?;
    let text = copied_text(alloc, &name.text)?;
    let local = Local {
        slot,
        name: text,
        claims,
    };
    let span = Span {
        from: name.span.from,
        to: end,
    };
    body.made.free = slot + 1;
    body.most = body.most.max(slot + 1);
    push_local(&mut body.locals, local, span).map_err(Stop::from)
}

/// Writes the default of the type into a local.
fn write_default(
    alloc: Global,
    slot: u32,
    ty: Type_,
    name: Span,
    body: &mut Body,
) -> Result<(), Stop>
    ensures { record {
      limit : (which : Which) → IsErrOf result (stop.Limit which) → spec.with_default slot ty name body.old ≡ Err which;
      body : OnOk result (spec.with_default slot ty name body.old ≡ Ok body.new);
    } }
{
    let top = body.made.free;
    let literal = default_of(alloc, &ty)?;
    let kind = OpKind::Const(top, literal);
    let value = compute(alloc, &mut body.made, kind, name)?;
    body.most = body.most.max(body.made.free);
    body.made.free = top;
    let spans = (name, name, name);
    assign(
        alloc,
        Spot::Variable(slot),
        value,
        ty,
        spans,
        &mut body.made,
    )
    .map_err(Stop::from)
}

/// Writes the value of an initialiser into a local.
fn write_init(
    alloc: Global,
    site: &Site<'_>,
    slot: u32,
    ty: Type_,
    name: Span,
    init: &Init,
    body: &mut Body,
) -> Result<(), Stop>
    ensures { record {
      limit : (which : Which) → IsErrOf result (stop.Limit which) → spec.with_init slot ty name init.now (shown_site site.now) body.old ≡ Err which;
      body : OnOk result (spec.with_init slot ty name init.now (shown_site site.now) body.old ≡ Ok body.new);
    } }
{
    let value = evaluate_init(alloc, site, init, &ty, body)?;
    let ty = value_type(alloc, site, init, &ty)?;
    let spans = (init_span(init), name, init_span(init));
    assign(
        alloc,
        Spot::Variable(slot),
        value,
        ty,
        spans,
        &mut body.made,
    )
    .map_err(Stop::from)
}

/// The declaration of a local whose block ends at that place.
pub fn declaration(
    alloc: Global,
    site: &Site<'_>,
    decl: &LocalDecl,
    end: u32,
    body: &mut Body,
) -> Result<(), Stop>
    ensures { record {
      limit : (which : Which) → IsErrOf result (stop.Limit which) → spec.declaration decl.now (shown_site site.now) end body.old ≡ Err which;
      body : OnOk result (spec.declaration decl.now (shown_site site.now) end body.old ≡ Ok body.new);
    } }
{
    let slot = body.made.free;
    declare(alloc, site, &decl.name, end, body)?;
    let ty = declared_type(alloc, site, decl.name.span)?;
    match &decl.init {
        None => write_default(alloc, slot, ty, decl.name.span, body),
        Some(init) => write_init(alloc, site, slot, ty, decl.name.span, init, body),
    }
}

pub fn declarations(
    alloc: Global,
    site: &Site<'_>,
    decls: &[LocalDecl],
    end: u32,
    body: &mut Body,
) -> Result<(), Stop>
    ensures { record {
      limit : (which : Which) → IsErrOf result (stop.Limit which) → spec.declarations decls.now (shown_site site.now) end body.old ≡ Err which;
      body : OnOk result (spec.declarations decls.now (shown_site site.now) end body.old ≡ Ok body.new);
    } }
{
    for decl in decls {
        declaration(alloc, site, decl, end, body)?;
    }
    Ok(())
}
