//! What is being made of one block.
ghost use Rattle.std.specs.Prelude.{◌≡◌, [], ◌∷◌, List as Elements, IfOk, OnOk, IsErrOf, Err, pos, ℤ, true, false, ◌+◌};
ghost use Rattle.ix_meaning.specs.declared.note.Which.{Which};
ghost use Rattle.ix_plain.specs.declared.made.Stop.TheVariants as stop;
ghost use Rattle.ix_core.specs.declared.op.Literal.TheVariants as literal;
ghost use Rattle.ix_core.specs.declared.op.OpKind.TheVariants as op;
ghost use Rattle.ix_core.specs.Types.{cell_type};
ghost use Rattle.ix_plain.specs.Parts as spec;
ghost use Rattle.ix_plain.specs.Values.{int_value};
ghost use Rattle.ix_lower_expressions.specs.Shown.{part_spans};

use ix_core::{Block, Claim, Cond, Item, Literal, Op, OpKind, Type_};
use ix_meaning::Which;
use ix_plain::{Made, Spot, Stop};
use ix_symbols::{INT, copied};
use ix_text::{List, Span};
use std::alloc::{AllocError, Global};

/// How many slots a method may have.
pub const MOST_SLOTS: u32 = 512;

/// No item yet.
pub fn empty(alloc: Global, free: u32) -> Made
    ensures { result ≡ spec.empty free }
{
    Made {
        items: List::new(alloc),
        free,
    }
}

/// Adds an item.
pub fn push(made: &mut Made, item: Item) -> Result<(), AllocError>
    ensures { OnOk result (made.new ≡ spec.with_item made.old item) }
{
    made.items.push(item).map_err(AllocError::from)
}

/// Adds an item whose target is the first free slot, and takes that.
pub fn take(made: &mut Made, item: Item) -> Result<u32, Stop>
    ensures { record {
      limit : (which : Which) → IsErrOf result (stop.Limit which) → spec.taking made.old item ≡ Err which;
      made : IfOk result (λ at. spec.taking made.old item ≡ spec.in_place made.new at);
    } }
{
    let slot = made.free;
    if slot >= MOST_SLOTS {
        return Err(Stop::Limit(Which::Slots));
    }
    push(made, item)?;
    made.free = slot + 1;
    Ok(slot)
}

/// An operation without parts.
pub fn done(alloc: Global, kind: OpKind, span: Span) -> Item
    ensures { result ≡ spec.done kind span [] }
{
    Item::Do(Op {
        kind,
        span,
        parts: List::new(alloc),
    })
}

/// Adds an operation into the first free slot, and takes that.
pub fn compute(alloc: Global, made: &mut Made, kind: OpKind, span: Span) -> Result<u32, Stop>
    ensures { record {
      limit : (which : Which) → IsErrOf result (stop.Limit which) → spec.computed made.old kind span ≡ Err which;
      made : IfOk result (λ at. spec.computed made.old kind span ≡ spec.in_place made.new at);
    } }
{
    let item = done(alloc, kind, span);
    take(made, item)
}

/// An int in a new temporary.
pub fn constant(alloc: Global, made: &mut Made, n: i32, span: Span) -> Result<u32, Stop>
    ensures { record {
      limit : (which : Which) → IsErrOf result (stop.Limit which) → int_value n span made.old ≡ Err which;
      made : IfOk result (λ at. int_value n span made.old ≡ spec.in_place made.new at);
    } }
{
    let kind = OpKind::Const(made.free, Literal::Int(n));
    compute(alloc, made, kind, span)
}

fn truth_block(alloc: Global, answer: bool, slot: u32, span: Span) -> Result<Block, AllocError>
    ensures { IfOk result (λ block. block ≡ record { items = spec.done (op.Const slot (literal.Bool answer)) span [] ∷ [] }) }
{
    let mut items = List::new(alloc);
    let item = done(alloc, OpKind::Const(slot, Literal::Bool(answer)), span);
    items.push(item)?;
    Ok(Block { items })
}

/// True or false in a new temporary, by a condition whose temporaries end before the first free slot.
pub fn truth(alloc: Global, asked: Cond, span: Span, made: &mut Made) -> Result<u32, Stop>
    ensures { record {
      limit : (which : Which) → IsErrOf result (stop.Limit which) → spec.truth_value made.old.items span (record { cond = asked; free = made.old.free }) ≡ Err which;
      made : IfOk result (λ at. spec.truth_value made.old.items span (record { cond = asked; free = made.old.free }) ≡ spec.in_place made.new at);
    } }
{
    let holds = truth_block(alloc, true, made.free, span)?;
    let fails = truth_block(alloc, false, made.free, span)?;
    take(made, Item::If(asked, holds, fails))
}

/// What is in a spot, in a new temporary.
pub fn read(alloc: Global, spot: &Spot, target: Span, made: &mut Made) -> Result<u32, Stop>
    ensures { record {
      limit : (which : Which) → IsErrOf result (stop.Limit which) → spec.read spot.now target made.old ≡ Err which;
      made : IfOk result (λ at. spec.read spot.now target made.old ≡ spec.in_place made.new at);
    } }
{
    match spot {
        Spot::Variable(slot) => {
            let kind = OpKind::Copy(made.free, *slot, INT);
            compute(alloc, made, kind, target)
        }
        Spot::FieldOf(object, field) => {
            let kind = OpKind::ReadField(made.free, *object, *field);
            compute(alloc, made, kind, target)
        }
        Spot::Cell(array, index, ty, at) => {
            let ty = copied(alloc, ty)?;
            let kind = OpKind::Load(made.free, *array, *index, ty);
            compute(alloc, made, kind, *at)
        }
    }
}

/// The places of the parts of a write, of which the target is one where it isn't a cell.
pub fn part_spans(
    alloc: Global,
    spot: &Spot,
    target: Span,
    from: Span,
) -> Result<List<Span>, AllocError>
    ensures { IfOk result (λ spans. spans ≡ part_spans spot.now target from) }
{
    let mut spans = List::new(alloc);
    match spot {
        Spot::Cell(_, _, _, _) => spans.push(from).map_err(AllocError::from).and(Ok(spans)),
        _ => spans
            .push(target)
            .and(spans.push(from))
            .map_err(AllocError::from)
            .and(Ok(spans)),
    }
}

/// The type of a cell.
pub fn cell_type(alloc: Global, ty: &Type_) -> Result<Type_, AllocError>
    ensures { IfOk result (λ cell. cell ≡ cell_type ty.now) }
{
    match ty {
        Type_::Array {
            base,
            depth: 0 | 1,
            element: _,
        } => Ok(Type_::Plain(*base)),
        Type_::Array {
            base,
            depth,
            element,
        } => {
            let element = copied_claims(alloc, element.as_slice())?;
            Ok(Type_::Array {
                base: *base,
                depth: *depth - 1,
                element,
            })
        }
        _ => Ok(Type_::Void),
    }
}

/// A copy of claims.
pub fn copied_claims(alloc: Global, claims: &[Claim]) -> Result<List<Claim>, AllocError>
    ensures { IfOk result (λ copy. copy ≡ claims.now) }
{
    let mut copy = List::new(alloc);
    for claim in claims {
        copy.push(*claim)?;
    }
    Ok(copy)
}
