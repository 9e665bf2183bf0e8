//! Expressions.
ghost use Rattle.std.specs.Prelude.{◌≡◌, ◌≢◌, ◌++◌, ◌∷◌, [], Bool, true, false, if◌then◌else◌, map, Some, None, Ok, Err, List as Elements, IfOk, OnOk, IsErrOf, MatchResult, pos, option_map};
ghost use Rattle.ix_num.specs.declared.arith.Arith.TheVariants as arith;
ghost use Rattle.ix_core.specs.Types.{int_type};
ghost use Rattle.ix_core.specs.declared.code.Cond.TheVariants as cond;
ghost use Rattle.ix_tree.specs.declared.expr.BinaryOp.TheVariants as binary;
ghost use Rattle.ix_core.specs.declared.op.OpKind.TheVariants as op;
ghost use Rattle.ix_meaning.specs.declared.note.Which.{Which};
ghost use Rattle.ix_plain.specs.declared.made.Made.{Made};
ghost use Rattle.ix_plain.specs.declared.made.Spot.TheVariants as spots;
ghost use Rattle.ix_plain.specs.declared.made.Stop.TheVariants as stop;
ghost use Rattle.ix_plain.specs.Parts.{block as block_of, computed, done, in_place, read, taking, with_item, write};
ghost use Rattle.ix_plain.specs.Parts as parts;
ghost use Rattle.ix_plain.specs.Scope.{type_at};
ghost use Rattle.ix_plain.specs.Values as spec;
ghost use Rattle.ix_plain.specs.Values.{int_value};
ghost use Rattle.ix_lower_expressions.specs.declared.expression.Form.TheVariants as form;
ghost use Rattle.ix_lower_expressions.specs.Shown.{shown_scope, valued, asked, targeted, left_unused, all_given, initial, all_initial, form_of, is_class_name, member_read, unary_num, received, call_on, class_of_object};

use crate::made::{cell_type, compute, constant, empty, part_spans, push, read, take, truth};
use crate::scope::{
    Scope, class_at, constructor_at, head_at, is_assigned, meaning_at, slot_of, type_at,
};
use ix_core::{Arg, Block, CallOp, Cond, Item, Literal, Op, OpKind, Test, Type_, UnaryNum};
use ix_meaning::Meaning;
use ix_num::{Arith, Rel};
use ix_plain::{Head, Made, Spot, Stop};
use ix_symbols::{INT, copied};
use ix_text::{Boxed, List, Span};
use ix_tree::{BinaryOp, Expr, ExprKind, Init, UnaryOp};
use std::alloc::{AllocError, Global};

/// By which function a form of expression is made.
#[derive(Clone, Copy)]
pub enum Form {
    /// `!`, `&&`, `||` and comparisons.
    Asks,
    Calls,
    /// New objects and arrays.
    Creates,
    /// Assignments and steps.
    Assigns,
    /// Selections and elements.
    Selects,
    /// Operators on ints.
    Operates,
    /// All others.
    Computes,
}

fn form_of(kind: &ExprKind) -> Form
    ensures { result ≡ form_of kind.now }
{
    match kind {
        ExprKind::Unary(UnaryOp::Not, _) => Form::Asks,
        ExprKind::Unary(_, _) | ExprKind::Binary(BinaryOp::Num(_), _, _) => Form::Operates,
        ExprKind::Binary(_, _, _) => Form::Asks,
        ExprKind::Select(_, _) | ExprKind::Index(_, _) => Form::Selects,
        ExprKind::Call(_, _, _) => Form::Calls,
        ExprKind::New(_, _) | ExprKind::NewArray(_, _) | ExprKind::NewItems(_, _) => Form::Creates,
        ExprKind::Assign(_, _, _) | ExprKind::Step { .. } => Form::Assigns,
        _ => Form::Computes,
    }
}

// ---- names, fields and numbers

/// A local or a parameter in place, or a copy of it where the full expression assigns it.
fn variable(
    alloc: Global,
    scope: &Scope<'_>,
    span: Span,
    slot: u32,
    made: &mut Made,
) -> Result<u32, Stop>
    ensures { record {
      limit : (which : Which) → IsErrOf result (stop.Limit which) → spec.variable (shown_scope scope.now) span slot made.old ≡ Err which;
      made : IfOk result (λ at. spec.variable (shown_scope scope.now) span slot made.old ≡ in_place made.new at);
    } }
{
    if !is_assigned(scope, slot) {
        return Ok(slot);
    }
    let ty = type_at(alloc, scope, span)?;
    let kind = OpKind::Copy(made.free, slot, ty);
    compute(alloc, made, kind, span)
}

/// What a name with that meaning holds.
fn named(
    alloc: Global,
    scope: &Scope<'_>,
    span: Span,
    meaning: Option<Meaning>,
    made: &mut Made,
) -> Result<u32, Stop>
    ensures { record {
      limit : (which : Which) → IsErrOf result (stop.Limit which) → spec.named (shown_scope scope.now) span meaning made.old ≡ Err which;
      made : IfOk result (λ at. spec.named (shown_scope scope.now) span meaning made.old ≡ in_place made.new at);
    } }
{
    match meaning {
        Some(Meaning::Constant(n)) => constant(alloc, made, n, span),
        Some(Meaning::FieldNamed(field)) => {
            let kind = OpKind::ReadField(made.free, 0, field);
            compute(alloc, made, kind, span)
        }
        _ => variable(alloc, scope, span, slot_of(scope, meaning), made),
    }
}

/// What an assignment to a name with that meaning writes.
fn named_spot(scope: &Scope<'_>, meaning: Option<Meaning>) -> Spot
    ensures { result ≡ spec.named_spot (shown_scope scope.now) meaning }
{
    match meaning {
        Some(Meaning::FieldNamed(field)) => Spot::FieldOf(0, field),
        _ => Spot::Variable(slot_of(scope, meaning)),
    }
}

fn field_number(meaning: Option<Meaning>) -> u32
    ensures { result ≡ spec.field_number meaning }
{
    match meaning {
        Some(Meaning::FieldNamed(field)) => field,
        _ => 0,
    }
}

fn method_number(meaning: Option<Meaning>) -> u32
    ensures { result ≡ spec.method_number meaning }
{
    match meaning {
        Some(Meaning::MethodNamed(method)) => method,
        _ => 0,
    }
}

fn class_number(meaning: Option<Meaning>) -> u32
    ensures { result ≡ spec.class_number meaning }
{
    match meaning {
        Some(Meaning::ClassNamed(class)) => class,
        _ => 0,
    }
}

fn null(alloc: Global, scope: &Scope<'_>, span: Span, made: &mut Made) -> Result<u32, Stop>
    ensures { record {
      limit : (which : Which) → IsErrOf result (stop.Limit which) → (spec.null span).value (shown_scope scope.now) made.old ≡ Err which;
      made : IfOk result (λ at. (spec.null span).value (shown_scope scope.now) made.old ≡ in_place made.new at);
    } }
{
    let ty = type_at(alloc, scope, span)?;
    let kind = OpKind::Const(made.free, Literal::NullOf(ty));
    compute(alloc, made, kind, span)
}

fn unary_num(op: UnaryOp) -> UnaryNum
    ensures { result ≡ unary_num op }
{
    match op {
        UnaryOp::Minus => UnaryNum::Neg,
        _ => UnaryNum::Flip,
    }
}

fn step_operator(up: bool) -> Arith
    ensures { result ≡ (if up then arith.Add else arith.Sub) }
{
    if up { Arith::Add } else { Arith::Sub }
}

fn step_value(after: bool, before: u32, behind: u32) -> u32
    ensures { result ≡ (if after then before else behind) }
{
    if after { before } else { behind }
}

/// Adds the write of a value into a spot; the places are those of the assignment, of its target and of its value.
pub fn assign(
    alloc: Global,
    spot: Spot,
    value: u32,
    ty: Type_,
    spans: (Span, Span, Span),
    made: &mut Made,
) -> Result<(), AllocError>
    ensures { OnOk result (made.new ≡ with_item made.old (write spot value ty spans.0 spans.1 spans.2)) }
{
    let (whole, target, from) = spans;
    let parts = part_spans(alloc, &spot, target, from)?;
    let (kind, span) = match spot {
        Spot::Variable(slot) => (OpKind::Copy(slot, value, ty), whole),
        Spot::FieldOf(object, field) => (OpKind::WriteField(object, field, value), whole),
        Spot::Cell(array, index, array_type, at) => {
            (OpKind::Store(array, index, value, array_type), at)
        }
    };
    push(made, Item::Do(Op { kind, span, parts }))
}

/// A call into that target.
pub fn call_op(
    target: u32,
    method: u32,
    receiver: Option<u32>,
    args: List<Arg>,
    class: u32,
    span: Span,
) -> CallOp
    ensures { result ≡ record { target = target; method = method; receiver = receiver; args = args; class = class; span = span } }
{
    CallOp {
        target,
        method,
        receiver,
        args,
        class,
        span,
    }
}

fn init_span(init: &Init) -> Span
    ensures { result ≡ (spec.filling init.now).span }
{
    match init {
        Init::Value(expr) => expr.span,
        Init::Items(_, span) => *span,
    }
}

fn init_spans(alloc: Global, inits: &[Init]) -> Result<List<Span>, AllocError>
    ensures { IfOk result (λ list. list ≡ spec.spans (map spec.filling inits.now)) }
{
    let mut list = List::new(alloc);
    for init in inits {
        list.push(init_span(init))?;
    }
    Ok(list)
}

fn add_arg(args: &mut List<Arg>, arg: Arg) -> Result<(), Stop>
    ensures { MatchResult result (λ _. args.new ≡ args.old ++ arg ∷ []) (λ cause. cause ≡ stop.Memory) }
{
    args.push(arg).map_err(AllocError::from).map_err(Stop::from)
}

fn add_slot(slots: &mut List<u32>, slot: u32) -> Result<(), Stop>
    ensures { MatchResult result (λ _. slots.new ≡ slots.old ++ slot ∷ []) (λ cause. cause ≡ stop.Memory) }
{
    slots
        .push(slot)
        .map_err(AllocError::from)
        .map_err(Stop::from)
}

/// Whether the expression is the name of a class.
fn is_class_name(scope: &Scope<'_>, expr: &Expr) -> bool
    ensures { result ≡ is_class_name (shown_scope scope.now) expr.now }
{
    match &expr.kind {
        ExprKind::Name(name) => match meaning_at(scope, name.span) {
            Some(Meaning::ClassNamed(_)) => true,
            _ => false,
        },
        _ => false,
    }
}

/// The read of an object's field, or of an array's length.
fn member_read(meaning: Option<Meaning>, target: u32, object: u32) -> OpKind
    ensures { result ≡ member_read target object meaning }
{
    match meaning {
        Some(Meaning::FieldNamed(field)) => OpKind::ReadField(target, object, field),
        _ => OpKind::Length(target, object),
    }
}

// ---- operations behind their parts

/// An element, in an array whose type is that of the expression at its place; the places are those of array and index.
fn loaded(
    alloc: Global,
    scope: &Scope<'_>,
    slots: (u32, u32),
    spans: (Span, Span),
    made: &mut Made,
) -> Result<u32, Stop>
    ensures { record {
      limit : (which : Which) → IsErrOf result (stop.Limit which) → computed made.old (op.Load made.old.free slots.0 slots.1 (type_at (shown_scope scope.now) spans.0)) spans.1 ≡ Err which;
      made : IfOk result (λ at. computed made.old (op.Load made.old.free slots.0 slots.1 (type_at (shown_scope scope.now) spans.0)) spans.1 ≡ in_place made.new at);
    } }
{
    let (array, index) = slots;
    let ty = type_at(alloc, scope, spans.0)?;
    let kind = OpKind::Load(made.free, array, index, ty);
    compute(alloc, made, kind, spans.1)
}

/// The cell of an array, whose type is that of the expression at its place; the places are those of array and index.
fn cell(
    alloc: Global,
    scope: &Scope<'_>,
    slots: (u32, u32),
    spans: (Span, Span),
) -> Result<Spot, Stop>
    ensures { MatchResult result (λ spot. spot ≡ spots.Cell slots.0 slots.1 (type_at (shown_scope scope.now) spans.0) spans.1) (λ cause. cause ≡ stop.Memory) }
{
    let (array, index) = slots;
    let ty = type_at(alloc, scope, spans.0)?;
    Ok(Spot::Cell(array, index, ty, spans.1))
}

/// A variable as the target of an assignment; slot 0 for what can't be assigned to.
fn plain_target(scope: &Scope<'_>, expr: &Expr) -> Spot
    requires { form_of expr.now.kind ≢ form.Selects }
    ensures { (made : Made) → targeted scope.now expr.now made ≡ Ok (record { made = made; spot = result }) }
{
    match &expr.kind {
        ExprKind::Name(name) => named_spot(scope, meaning_at(scope, name.span)),
        _ => Spot::Variable(0),
    }
}

/// Writes a value into a spot, and answers it.
fn written(
    alloc: Global,
    scope: &Scope<'_>,
    spot: Spot,
    value: u32,
    spans: (Span, Span, Span),
    made: &mut Made,
) -> Result<u32, Stop>
    ensures { record {
      limit : (which : Which) → IsErrOf result (stop.Limit which) → in_place (with_item made.old (write spot value (type_at (shown_scope scope.now) spans.2) spans.0 spans.1 spans.2)) value ≡ Err which;
      made : IfOk result (λ at. in_place (with_item made.old (write spot value (type_at (shown_scope scope.now) spans.2) spans.0 spans.1 spans.2)) value ≡ in_place made.new at);
    } }
{
    let ty = type_at(alloc, scope, spans.2)?;
    assign(alloc, spot, value, ty, spans, made)
        .map_err(Stop::from)
        .and(Ok(value))
}

/// Computes with two ints, and writes the result into a spot; answers the first of them or the result. The places are those of the assignment and of its target.
fn computed_into(
    alloc: Global,
    spot: Spot,
    arith: Arith,
    slots: (u32, u32),
    first: bool,
    spans: (Span, Span),
    made: &mut Made,
) -> Result<u32, Stop>
    ensures { record {
      limit : (which : Which) → IsErrOf result (stop.Limit which) → (parts.◌>>=◌ (computed made.old (op.Num made.old.free arith slots.0 slots.1) spans.0) (λ t. in_place (with_item t.made (write spot t.slot int_type spans.0 spans.1 spans.0)) (if first then slots.0 else t.slot))) ≡ Err which;
      made : IfOk result (λ at. (parts.◌>>=◌ (computed made.old (op.Num made.old.free arith slots.0 slots.1) spans.0) (λ t. in_place (with_item t.made (write spot t.slot int_type spans.0 spans.1 spans.0)) (if first then slots.0 else t.slot))) ≡ in_place made.new at);
    } }
{
    let (y, z) = slots;
    let (whole, target) = spans;
    let kind = OpKind::Num(made.free, arith, y, z);
    let t = compute(alloc, made, kind, whole)?;
    assign(alloc, spot, t, INT, (whole, target, whole), made)
        .map_err(Stop::from)
        .and(Ok(step_value(first, y, t)))
}

/// Adds 1 to a spot, or subtracts it; answers what is read or what is written.
fn stepped(
    alloc: Global,
    spot: Spot,
    up: bool,
    after: bool,
    spans: (Span, Span),
    made: &mut Made,
) -> Result<u32, Stop>
    ensures { record {
      limit : (which : Which) → IsErrOf result (stop.Limit which) → (parts.◌>>=◌ (read spot spans.1 made.old) (λ y. parts.◌>>=◌ (int_value (pos 1) spans.0 y.made) (λ one. parts.◌>>=◌ (computed one.made (op.Num one.made.free (if up then arith.Add else arith.Sub) y.slot one.slot) spans.0) (λ t. in_place (with_item t.made (write spot t.slot int_type spans.0 spans.1 spans.0)) (if after then y.slot else t.slot))))) ≡ Err which;
      made : IfOk result (λ at. (parts.◌>>=◌ (read spot spans.1 made.old) (λ y. parts.◌>>=◌ (int_value (pos 1) spans.0 y.made) (λ one. parts.◌>>=◌ (computed one.made (op.Num one.made.free (if up then arith.Add else arith.Sub) y.slot one.slot) spans.0) (λ t. in_place (with_item t.made (write spot t.slot int_type spans.0 spans.1 spans.0)) (if after then y.slot else t.slot))))) ≡ in_place made.new at);
    } }
{
    let y = read(alloc, &spot, spans.1, made)?;
    let one = constant(alloc, made, 1, spans.0)?;
    computed_into(alloc, spot, step_operator(up), (y, one), after, spans, made)
}

/// The class of the object that a method is called on.
fn object_class(scope: &Scope<'_>, object: &Option<Boxed<Expr>>) -> u32
    ensures { result ≡ class_of_object (shown_scope scope.now) object.now }
{
    match object {
        None => scope.site.class,
        Some(object) => class_at(scope, object.get().span),
    }
}

/// A call of a static method, or of another on an object of a class.
fn call_on(
    alloc: Global,
    head: Head,
    method: u32,
    object: (u32, u32),
    args: List<Arg>,
    span: Span,
    made: &mut Made,
) -> Result<u32, Stop>
    ensures { record {
      limit : (which : Which) → IsErrOf result (stop.Limit which) → call_on head method object.0 object.1 span (record { made = made.old; args = args }) ≡ Err which;
      made : IfOk result (λ at. call_on head method object.0 object.1 span (record { made = made.old; args = args }) ≡ in_place made.new at);
    } }
{
    let (object, class) = object;
    if head.is_static {
        let call = call_op(made.free, method, None, args, head.class, span);
        compute(alloc, made, OpKind::StaticCall(call), span)
    } else {
        let call = call_op(made.free, method, Some(object), args, class, span);
        compute(alloc, made, OpKind::InstanceCall(call), span)
    }
}

/// A new object, made by that constructor.
fn new_object(
    alloc: Global,
    method: u32,
    args: List<Arg>,
    class: u32,
    span: Span,
    made: &mut Made,
) -> Result<u32, Stop>
    ensures { record {
      limit : (which : Which) → IsErrOf result (stop.Limit which) → spec.calling op.NewObject method None class span (record { made = made.old; args = args }) ≡ Err which;
      made : IfOk result (λ at. spec.calling op.NewObject method None class span (record { made = made.old; args = args }) ≡ in_place made.new at);
    } }
{
    let call = call_op(made.free, method, None, args, class, span);
    compute(alloc, made, OpKind::NewObject(call), span)
}

/// A new array; the places are those of the whole and of its length.
fn new_array(
    alloc: Global,
    scope: &Scope<'_>,
    length: u32,
    spans: (Span, Span),
    made: &mut Made,
) -> Result<u32, Stop>
    ensures { record {
      limit : (which : Which) → IsErrOf result (stop.Limit which) → computed made.old (op.NewArray made.old.free (type_at (shown_scope scope.now) spans.0) length) spans.1 ≡ Err which;
      made : IfOk result (λ at. computed made.old (op.NewArray made.old.free (type_at (shown_scope scope.now) spans.0) length) spans.1 ≡ in_place made.new at);
    } }
{
    let ty = type_at(alloc, scope, spans.0)?;
    let kind = OpKind::NewArray(made.free, ty, length);
    compute(alloc, made, kind, spans.1)
}

/// An array of that type that holds the values of these initialisers.
fn array_of(
    alloc: Global,
    inits: &[Init],
    slots: List<u32>,
    span: Span,
    ty: &Type_,
    made: &mut Made,
) -> Result<u32, Stop>
    ensures { record {
      limit : (which : Which) → IsErrOf result (stop.Limit which) → taking made.old (done (op.Fill made.old.free ty.now slots) span (spec.spans (map spec.filling inits.now))) ≡ Err which;
      made : IfOk result (λ at. taking made.old (done (op.Fill made.old.free ty.now slots) span (spec.spans (map spec.filling inits.now))) ≡ in_place made.new at);
    } }
{
    let parts = init_spans(alloc, inits)?;
    let ty = copied(alloc, ty)?;
    let kind = OpKind::Fill(made.free, ty, slots);
    take(made, Item::Do(Op { kind, span, parts }))
}

fn opposite(alloc: Global, asked: Cond) -> Result<Cond, Stop>
    ensures { MatchResult result (λ made. made ≡ cond.Opposite asked) (λ cause. cause ≡ stop.Memory) }
{
    Ok(Cond::Opposite(Boxed::new(alloc, asked)?))
}

/// Both conditions by `&&`, or one of them by `||`.
fn joined(alloc: Global, op: BinaryOp, first: Cond, second: Cond) -> Result<Cond, Stop>
    ensures { record {
      both : op ≡ binary.AndAlso → MatchResult result (λ made. made ≡ cond.Both first second) (λ cause. cause ≡ stop.Memory);
      either : op ≡ binary.OrElse → MatchResult result (λ made. made ≡ cond.Either first second) (λ cause. cause ≡ stop.Memory);
    } }
{
    let left = Boxed::new(alloc, first)?;
    let right = Boxed::new(alloc, second)?;
    match op {
        BinaryOp::AndAlso => Ok(Cond::Both(left, right)),
        _ => Ok(Cond::Either(left, right)),
    }
}

/// A comparison of slots, which the block computes; the places are those of the sides.
fn compared(
    alloc: Global,
    scope: &Scope<'_>,
    rel: Rel,
    slots: (u32, u32),
    spans: (Span, Span),
    block: Made,
) -> Result<Cond, Stop>
    ensures { MatchResult result (λ made. made ≡ cond.Compare (block_of block) (record { rel = rel; left = slots.0; right = slots.1; ty = type_at (shown_scope scope.now) spans.0; left_span = spans.0; right_span = spans.1 })) (λ cause. cause ≡ stop.Memory) }
{
    let (left, right) = slots;
    let (left_span, right_span) = spans;
    let ty = type_at(alloc, scope, left_span)?;
    let test = Test {
        rel,
        left,
        right,
        ty,
        left_span,
        right_span,
    };
    Ok(Cond::Compare(Block { items: block.items }, test))
}

// ---- expressions

/// The value of an expression: its operations are added, and the slot that holds it is answered.
#[cycle(lowering)]
pub fn value(alloc: Global, scope: &Scope<'_>, expr: &Expr, made: &mut Made) -> Result<u32, Stop>
    ensures { record {
      limit : (which : Which) → IsErrOf result (stop.Limit which) → valued scope.now expr.now made.old ≡ Err which;
      made : IfOk result (λ at. valued scope.now expr.now made.old ≡ in_place made.new at);
    } }
{
    match form_of(&expr.kind) {
        Form::Asks => {
            let asked = asked(alloc, scope, expr, &mut made.free)?;
            truth(alloc, asked, expr.span, made)
        }
        Form::Calls => called(alloc, scope, expr, made),
        Form::Creates => created(alloc, scope, expr, made),
        Form::Selects => selected(alloc, scope, expr, made),
        Form::Operates => operated(alloc, scope, expr, made),
        Form::Assigns => assigned(alloc, scope, expr, made),
        Form::Computes => computed(alloc, scope, expr, made),
    }
}

/// A literal, `this` or a name.
fn computed(alloc: Global, scope: &Scope<'_>, expr: &Expr, made: &mut Made) -> Result<u32, Stop>
    requires { form_of expr.now.kind ≡ form.Computes }
    ensures { record {
      limit : (which : Which) → IsErrOf result (stop.Limit which) → valued scope.now expr.now made.old ≡ Err which;
      made : IfOk result (λ at. valued scope.now expr.now made.old ≡ in_place made.new at);
    } }
{
    match &expr.kind {
        ExprKind::Int(n) => constant(alloc, made, *n, expr.span),
        ExprKind::Bool(answer) => {
            let kind = OpKind::Const(made.free, Literal::Bool(*answer));
            compute(alloc, made, kind, expr.span)
        }
        ExprKind::Null => null(alloc, scope, expr.span, made),
        ExprKind::This => Ok(0),
        ExprKind::Name(name) => {
            named(alloc, scope, expr.span, meaning_at(scope, name.span), made)
        }
        _ => unreachable!(),
    }
}

/// A field, a length, a constant or an element.
#[cycle(lowering)]
fn selected(alloc: Global, scope: &Scope<'_>, expr: &Expr, made: &mut Made) -> Result<u32, Stop>
    requires { form_of expr.now.kind ≡ form.Selects }
    ensures { record {
      limit : (which : Which) → IsErrOf result (stop.Limit which) → valued scope.now expr.now made.old ≡ Err which;
      made : IfOk result (λ at. valued scope.now expr.now made.old ≡ in_place made.new at);
    } }
{
    match &expr.kind {
        ExprKind::Select(object, name) => match meaning_at(scope, name.span) {
            Some(Meaning::Constant(n)) => {
                unused(alloc, scope, object.get(), made)?;
                constant(alloc, made, n, expr.span)
            }
            other => {
                let o = value(alloc, scope, object.get(), made)?;
                let kind = member_read(other, made.free, o);
                compute(alloc, made, kind, expr.span)
            }
        },
        ExprKind::Index(array, index) => {
            let a = value(alloc, scope, array.get(), made)?;
            let i = value(alloc, scope, index.get(), made)?;
            loaded(
                alloc,
                scope,
                (a, i),
                (array.get().span, index.get().span),
                made,
            )
        }
        _ => unreachable!(),
    }
}

/// An operator on ints.
#[cycle(lowering)]
fn operated(alloc: Global, scope: &Scope<'_>, expr: &Expr, made: &mut Made) -> Result<u32, Stop>
    requires { form_of expr.now.kind ≡ form.Operates }
    ensures { record {
      limit : (which : Which) → IsErrOf result (stop.Limit which) → valued scope.now expr.now made.old ≡ Err which;
      made : IfOk result (λ at. valued scope.now expr.now made.old ≡ in_place made.new at);
    } }
{
    match &expr.kind {
        ExprKind::Unary(UnaryOp::Plus, operand) => value(alloc, scope, operand.get(), made),
        ExprKind::Unary(op @ (UnaryOp::Minus | UnaryOp::Flip), operand) => {
            let y = value(alloc, scope, operand.get(), made)?;
            let kind = OpKind::Unary(made.free, unary_num(*op), y);
            compute(alloc, made, kind, expr.span)
        }
        ExprKind::Binary(BinaryOp::Num(arith), left, right) => {
            let y = value(alloc, scope, left.get(), made)?;
            let z = value(alloc, scope, right.get(), made)?;
            let kind = OpKind::Num(made.free, *arith, y, z);
            compute(alloc, made, kind, expr.span)
        }
        _ => unreachable!(),
    }
}

#[cycle(lowering)]
fn assigned(alloc: Global, scope: &Scope<'_>, expr: &Expr, made: &mut Made) -> Result<u32, Stop>
    requires { form_of expr.now.kind ≡ form.Assigns }
    ensures { record {
      limit : (which : Which) → IsErrOf result (stop.Limit which) → valued scope.now expr.now made.old ≡ Err which;
      made : IfOk result (λ at. valued scope.now expr.now made.old ≡ in_place made.new at);
    } }
{
    match &expr.kind {
        ExprKind::Assign(operator, place, from) => {
            let spot = target(alloc, scope, place.get(), made)?;
            match operator {
                None => {
                    let v = value(alloc, scope, from.get(), made)?;
                    let spans = (expr.span, place.get().span, from.get().span);
                    written(alloc, scope, spot, v, spans, made)
                }
                Some(arith) => {
                    let y = read(alloc, &spot, place.get().span, made)?;
                    let z = value(alloc, scope, from.get(), made)?;
                    let spans = (expr.span, place.get().span);
                    computed_into(alloc, spot, *arith, (y, z), false, spans, made)
                }
            }
        }
        ExprKind::Step {
            up,
            after,
            target: place,
        } => {
            let spot = target(alloc, scope, place.get(), made)?;
            let spans = (expr.span, place.get().span);
            stepped(alloc, spot, *up, *after, spans, made)
        }
        _ => unreachable!(),
    }
}

#[cycle(lowering)]
fn called(alloc: Global, scope: &Scope<'_>, expr: &Expr, made: &mut Made) -> Result<u32, Stop>
    requires { form_of expr.now.kind ≡ form.Calls }
    ensures { record {
      limit : (which : Which) → IsErrOf result (stop.Limit which) → valued scope.now expr.now made.old ≡ Err which;
      made : IfOk result (λ at. valued scope.now expr.now made.old ≡ in_place made.new at);
    } }
{
    match &expr.kind {
        ExprKind::Call(object, name, args) => {
            let method = method_number(meaning_at(scope, name.span));
            let head = head_at(&scope.site, method);
            let o = receiver(alloc, scope, object, head.is_static, made)?;
            let args = arguments(alloc, scope, args.as_slice(), made)?;
            let class = object_class(scope, object);
            call_on(alloc, head, method, (o, class), args, name.span, made)
        }
        _ => unreachable!(),
    }
}

/// What stands before the dot of a call: evaluated only, where the method is static, and else the object that it is called on, which is `this` without a dot.
#[cycle(lowering)]
fn receiver(
    alloc: Global,
    scope: &Scope<'_>,
    object: &Option<Boxed<Expr>>,
    is_static: bool,
    made: &mut Made,
) -> Result<u32, Stop>
    ensures { record {
      limit : (which : Which) → IsErrOf result (stop.Limit which) → received is_static (option_map spec.lowering object.now) (shown_scope scope.now) made.old ≡ Err which;
      made : IfOk result (λ at. received is_static (option_map spec.lowering object.now) (shown_scope scope.now) made.old ≡ in_place made.new at);
    } }
{
    match object {
        None => Ok(0),
        Some(object) => {
            if is_static {
                unused(alloc, scope, object.get(), made).and(Ok(0))
            } else {
                value(alloc, scope, object.get(), made)
            }
        }
    }
}

/// A new object or array.
#[cycle(lowering)]
fn created(alloc: Global, scope: &Scope<'_>, expr: &Expr, made: &mut Made) -> Result<u32, Stop>
    requires { form_of expr.now.kind ≡ form.Creates }
    ensures { record {
      limit : (which : Which) → IsErrOf result (stop.Limit which) → valued scope.now expr.now made.old ≡ Err which;
      made : IfOk result (λ at. valued scope.now expr.now made.old ≡ in_place made.new at);
    } }
{
    match &expr.kind {
        ExprKind::New(name, args) => {
            let class = class_number(meaning_at(scope, name.span));
            let method = constructor_at(&scope.site, class);
            let args = arguments(alloc, scope, args.as_slice(), made)?;
            new_object(alloc, method, args, class, expr.span, made)
        }
        ExprKind::NewArray(_, size) => {
            let n = value(alloc, scope, size.get(), made)?;
            new_array(alloc, scope, n, (expr.span, size.get().span), made)
        }
        ExprKind::NewItems(_, items) => {
            let ty = type_at(alloc, scope, expr.span)?;
            filled(alloc, scope, items.as_slice(), expr.span, &ty, made)
        }
        _ => unreachable!(),
    }
}

/// The arguments from left to right.
#[cycle(lowering)]
pub fn arguments(
    alloc: Global,
    scope: &Scope<'_>,
    exprs: &[Expr],
    made: &mut Made,
) -> Result<List<Arg>, Stop>
    ensures { record {
      limit : (which : Which) → IsErrOf result (stop.Limit which) → all_given scope.now exprs.now made.old ≡ Err which;
      made : IfOk result (λ args. all_given scope.now exprs.now made.old ≡ Ok (record { made = made.new; args = args }));
    } }
{
    let mut args = List::new(alloc);
    for expr in exprs {
        let slot = value(alloc, scope, expr, made)?;
        let span = expr.span;
        add_arg(&mut args, Arg { slot, span })?;
    }
    Ok(args)
}

/// The values of entries of that type, from left to right.
#[cycle(lowering)]
fn entries(
    alloc: Global,
    scope: &Scope<'_>,
    inits: &[Init],
    cell: &Type_,
    made: &mut Made,
) -> Result<List<u32>, Stop>
    ensures { record {
      limit : (which : Which) → IsErrOf result (stop.Limit which) → all_initial scope.now inits.now cell.now made.old ≡ Err which;
      made : IfOk result (λ slots. all_initial scope.now inits.now cell.now made.old ≡ Ok (record { made = made.new; slots = slots }));
    } }
{
    let mut slots = List::new(alloc);
    for init in inits {
        let slot = filling(alloc, scope, init, cell, made)?;
        add_slot(&mut slots, slot)?;
    }
    Ok(slots)
}

/// An array of that type, whose entries are filled from left to right.
#[cycle(lowering)]
fn filled(
    alloc: Global,
    scope: &Scope<'_>,
    inits: &[Init],
    span: Span,
    ty: &Type_,
    made: &mut Made,
) -> Result<u32, Stop>
    ensures { record {
      limit : (which : Which) → IsErrOf result (stop.Limit which) → spec.filled (map spec.filling inits.now) span (shown_scope scope.now) ty.now made.old ≡ Err which;
      made : IfOk result (λ at. spec.filled (map spec.filling inits.now) span (shown_scope scope.now) ty.now made.old ≡ in_place made.new at);
    } }
{
    let cell = cell_type(alloc, ty)?;
    let slots = entries(alloc, scope, inits, &cell, made)?;
    array_of(alloc, inits, slots, span, ty, made)
}

/// The value of an initialiser of a variable of that type.
#[cycle(lowering)]
pub fn filling(
    alloc: Global,
    scope: &Scope<'_>,
    init: &Init,
    ty: &Type_,
    made: &mut Made,
) -> Result<u32, Stop>
    ensures { record {
      limit : (which : Which) → IsErrOf result (stop.Limit which) → initial scope.now init.now ty.now made.old ≡ Err which;
      made : IfOk result (λ at. initial scope.now init.now ty.now made.old ≡ in_place made.new at);
    } }
{
    match init {
        Init::Value(expr) => value(alloc, scope, expr, made),
        Init::Items(items, span) => filled(alloc, scope, items.as_slice(), *span, ty, made),
    }
}

/// An expression before a dot whose value isn't used.
#[cycle(lowering)]
fn unused(alloc: Global, scope: &Scope<'_>, expr: &Expr, made: &mut Made) -> Result<(), Stop>
    ensures { record {
      limit : (which : Which) → IsErrOf result (stop.Limit which) → left_unused scope.now expr.now made.old ≡ Err which;
      made : OnOk result (left_unused scope.now expr.now made.old ≡ Ok made.new);
    } }
{
    if is_class_name(scope, expr) {
        return Ok(());
    }
    value(alloc, scope, expr, made).and(Ok(()))
}

/// The parts of an assignment's target, which are evaluated once.
#[cycle(lowering)]
fn target(alloc: Global, scope: &Scope<'_>, expr: &Expr, made: &mut Made) -> Result<Spot, Stop>
    ensures { record {
      limit : (which : Which) → IsErrOf result (stop.Limit which) → targeted scope.now expr.now made.old ≡ Err which;
      made : IfOk result (λ spot. targeted scope.now expr.now made.old ≡ Ok (record { made = made.new; spot = spot }));
    } }
{
    match form_of(&expr.kind) {
        Form::Selects => selected_target(alloc, scope, expr, made),
        _ => Ok(plain_target(scope, expr)),
    }
}

/// A field or an element as the target of an assignment.
#[cycle(lowering)]
fn selected_target(
    alloc: Global,
    scope: &Scope<'_>,
    expr: &Expr,
    made: &mut Made,
) -> Result<Spot, Stop>
    requires { form_of expr.now.kind ≡ form.Selects }
    ensures { record {
      limit : (which : Which) → IsErrOf result (stop.Limit which) → targeted scope.now expr.now made.old ≡ Err which;
      made : IfOk result (λ spot. targeted scope.now expr.now made.old ≡ Ok (record { made = made.new; spot = spot }));
    } }
{
    match &expr.kind {
        ExprKind::Select(object, name) => {
            let o = value(alloc, scope, object.get(), made)?;
            let field = field_number(meaning_at(scope, name.span));
            Ok(Spot::FieldOf(o, field))
        }
        ExprKind::Index(array, index) => {
            let a = value(alloc, scope, array.get(), made)?;
            let i = value(alloc, scope, index.get(), made)?;
            cell(alloc, scope, (a, i), (array.get().span, index.get().span))
        }
        _ => unreachable!(),
    }
}

/// A condition, whose temporaries begin with the first free slot.
#[cycle(lowering)]
pub fn condition(
    alloc: Global,
    scope: &Scope<'_>,
    expr: &Expr,
    free: &mut u32,
) -> Result<Cond, Stop>
    ensures { record {
      cond : IfOk result (λ cond. asked scope.now expr.now free.old ≡ Ok (record { cond = cond; free = free.new }));
      limit : (which : Which) → IsErrOf result (stop.Limit which) → asked scope.now expr.now free.old ≡ Err which;
    } }
{
    match form_of(&expr.kind) {
        Form::Asks => asked(alloc, scope, expr, free),
        _ => decided(alloc, scope, expr, free),
    }
}

/// The condition of an expression that doesn't ask.
#[cycle(lowering)]
fn decided(alloc: Global, scope: &Scope<'_>, expr: &Expr, free: &mut u32) -> Result<Cond, Stop>
    requires { form_of expr.now.kind ≢ form.Asks }
    ensures { record {
      cond : IfOk result (λ cond. asked scope.now expr.now free.old ≡ Ok (record { cond = cond; free = free.new }));
      limit : (which : Which) → IsErrOf result (stop.Limit which) → asked scope.now expr.now free.old ≡ Err which;
    } }
{
    if let ExprKind::Bool(answer) = &expr.kind {
        return Ok(Cond::Known(*answer));
    }
    let mut block = empty(alloc, *free);
    let slot = value(alloc, scope, expr, &mut block)?;
    *free = block.free;
    Ok(Cond::Truth(Block { items: block.items }, slot))
}

/// The condition of an expression that asks.
#[cycle(lowering)]
fn asked(alloc: Global, scope: &Scope<'_>, expr: &Expr, free: &mut u32) -> Result<Cond, Stop>
    requires { form_of expr.now.kind ≡ form.Asks }
    ensures { record {
      cond : IfOk result (λ cond. asked scope.now expr.now free.old ≡ Ok (record { cond = cond; free = free.new }));
      limit : (which : Which) → IsErrOf result (stop.Limit which) → asked scope.now expr.now free.old ≡ Err which;
    } }
{
    match &expr.kind {
        ExprKind::Unary(_, operand) => {
            let first = condition(alloc, scope, operand.get(), free)?;
            opposite(alloc, first)
        }
        ExprKind::Binary(op @ (BinaryOp::AndAlso | BinaryOp::OrElse), left, right) => {
            let first = condition(alloc, scope, left.get(), free)?;
            let second = condition(alloc, scope, right.get(), free)?;
            joined(alloc, *op, first, second)
        }
        ExprKind::Binary(BinaryOp::Compare(rel), left, right) => {
            let mut block = empty(alloc, *free);
            let y = value(alloc, scope, left.get(), &mut block)?;
            let z = value(alloc, scope, right.get(), &mut block)?;
            *free = block.free;
            let spans = (left.get().span, right.get().span);
            compared(alloc, scope, *rel, (y, z), spans, block)
        }
        _ => unreachable!(),
    }
}
