//! The nodes of expressions, each made of its parts, which are lower than `left`. The one error is want of memory.
ghost use Rattle.std.specs.Prelude.{◌≡◌, ◌<◌, ◌≤◌, MatchResult};
ghost use Rattle.ix_grammar.specs.ExprNodes as nodes;
ghost use Rattle.ix_grammar_rules.specs.declared.stop.Stop.TheVariants.{Memory};

use ix_grammar::found::{Args, At, Form, Found, FoundInit, FoundItems, FoundType, Notes, Several};
use ix_grammar::spans::{across, base_height};
use ix_grammar_rules::stop::Stop;
use ix_num::Arith;
use ix_text::{Boxed, List, Span};
use ix_tree::{Annot, BaseTree, BinaryOp, Expr, ExprKind, Ident, Init, TypeTree, UnaryOp};
use std::alloc::Global;

/// A node that is 1 higher than its highest part.
fn node(
    alloc: Global,
    left: u32,
    kind: ExprKind,
    form: Form,
    parts: u32,
    outer: Span,
) -> Result<Found, Stop>
    requires room { parts < left }
    ensures { MatchResult result (λ found. found ≡ nodes.node kind form parts outer) (λ stop. stop ≡ Memory) }
{
    let expr = Boxed::new(alloc, Expr { kind, span: outer })?;
    Ok(Found {
        expr,
        form,
        height: parts + 1,
        outer,
    })
}

/// A node without parts.
pub fn leaf(alloc: Global, kind: ExprKind, span: Span) -> Result<Found, Stop>
    ensures { MatchResult result (λ found. found ≡ nodes.leaf kind span) (λ stop. stop ≡ Memory) }
{
    node(alloc, 1, kind, Form::Value, 0, span)
}

/// A variable (JLS 6.5.6.1).
pub fn named(alloc: Global, name: Ident) -> Result<Found, Stop>
    ensures { MatchResult result (λ found. found ≡ nodes.named name) (λ stop. stop ≡ Memory) }
{
    let span = name.span;
    node(alloc, 2, ExprKind::Name(name), Form::Variable, 1, span)
}

/// An expression in parentheses (JLS 15.8.5).
pub fn within(left: u32, opening: Span, right: Span, inside: Found) -> Found
    requires room { inside.height < left }
    ensures { result ≡ nodes.within opening right inside }
{
    Found {
        expr: inside.expr,
        form: Form::Value,
        height: inside.height + 1,
        outer: across(opening, right),
    }
}

/// A field of an object (JLS 15.11).
pub fn selected(alloc: Global, left: u32, object: Found, name: Ident) -> Result<Found, Stop>
    requires { record {
      two : 1 < left;
      room : object.height < left;
    } }
    ensures { MatchResult result (λ found. found ≡ nodes.selected object name) (λ stop. stop ≡ Memory) }
{
    let outer = across(object.outer, name.span);
    let parts = object.height.max(1);
    let kind = ExprKind::Select(object.expr, name);
    node(alloc, left, kind, Form::Variable, parts, outer)
}

/// An element of an array (JLS 15.10.3).
pub fn element(
    alloc: Global,
    left: u32,
    array: Found,
    index: Found,
    right: Span,
) -> Result<Found, Stop>
    requires { record {
      array_room : array.height < left;
      index_room : index.height < left;
    } }
    ensures { MatchResult result (λ found. found ≡ nodes.element array index right) (λ stop. stop ≡ Memory) }
{
    let outer = across(array.outer, right);
    let parts = array.height.max(index.height);
    let kind = ExprKind::Index(array.expr, index.expr);
    node(alloc, left, kind, Form::Variable, parts, outer)
}

/// A call of a method of this class (JLS 15.12).
pub fn called(alloc: Global, left: u32, name: Ident, args: Args) -> Result<Found, Stop>
    requires { record {
      two : 1 < left;
      room : args.height < left;
    } }
    ensures { MatchResult result (λ found. found ≡ nodes.called name args) (λ stop. stop ≡ Memory) }
{
    let outer = across(name.span, args.end);
    let parts = 1u32.max(args.height);
    let kind = ExprKind::Call(None, name, args.items);
    node(alloc, left, kind, Form::Statement, parts, outer)
}

/// A call of a method of an object (JLS 15.12).
pub fn called_on(
    alloc: Global,
    left: u32,
    object: Found,
    name: Ident,
    args: Args,
) -> Result<Found, Stop>
    requires { record {
      two : 1 < left;
      object_room : object.height < left;
      args_room : args.height < left;
    } }
    ensures { MatchResult result (λ found. found ≡ nodes.called_on object name args) (λ stop. stop ≡ Memory) }
{
    let outer = across(object.outer, args.end);
    let parts = object.height.max(1u32.max(args.height));
    let kind = ExprKind::Call(Some(object.expr), name, args.items);
    node(alloc, left, kind, Form::Statement, parts, outer)
}

/// A new object (JLS 15.9).
pub fn created(
    alloc: Global,
    left: u32,
    start: Span,
    name: Ident,
    args: Args,
) -> Result<Found, Stop>
    requires { record {
      two : 1 < left;
      room : args.height < left;
    } }
    ensures { MatchResult result (λ found. found ≡ nodes.created start name args) (λ stop. stop ≡ Memory) }
{
    let outer = across(start, args.end);
    let parts = 1u32.max(args.height);
    let kind = ExprKind::New(name, args.items);
    node(alloc, left, kind, Form::Statement, parts, outer)
}

/// An expression with an operator before it (JLS 15.15).
pub fn unary(
    alloc: Global,
    left: u32,
    op: UnaryOp,
    start: Span,
    operand: Found,
) -> Result<Found, Stop>
    requires room { operand.height < left }
    ensures { MatchResult result (λ found. found ≡ nodes.unary op start operand) (λ stop. stop ≡ Memory) }
{
    let outer = across(start, operand.outer);
    let kind = ExprKind::Unary(op, operand.expr);
    node(alloc, left, kind, Form::Value, operand.height, outer)
}

/// The literal -2147483648 (JLS 3.10.1).
pub fn least_int(alloc: Global, minus: Span, literal: Span) -> Result<Found, Stop>
    ensures { MatchResult result (λ found. found ≡ nodes.least_int minus literal) (λ stop. stop ≡ Memory) }
{
    leaf(alloc, ExprKind::Int(-2147483648), across(minus, literal))
}

/// `++` or `--` before a variable (JLS 15.15.1, 15.15.2).
pub fn stepped_before(
    alloc: Global,
    left: u32,
    up: bool,
    start: Span,
    target: Found,
) -> Result<Found, Stop>
    requires room { target.height < left }
    ensures { MatchResult result (λ found. found ≡ nodes.stepped_before up start target) (λ stop. stop ≡ Memory) }
{
    let outer = across(start, target.outer);
    let kind = ExprKind::Step {
        up,
        after: false,
        target: target.expr,
    };
    node(alloc, left, kind, Form::Statement, target.height, outer)
}

/// `++` or `--` behind a variable (JLS 15.14.2, 15.14.3).
pub fn stepped_after(
    alloc: Global,
    left: u32,
    up: bool,
    target: Found,
    end: Span,
) -> Result<Found, Stop>
    requires room { target.height < left }
    ensures { MatchResult result (λ found. found ≡ nodes.stepped_after up target end) (λ stop. stop ≡ Memory) }
{
    let outer = across(target.outer, end);
    let kind = ExprKind::Step {
        up,
        after: true,
        target: target.expr,
    };
    node(alloc, left, kind, Form::Statement, target.height, outer)
}

/// Two expressions with an operator between (JLS 15.17 to 15.24).
pub fn joined(
    alloc: Global,
    left: u32,
    op: BinaryOp,
    first: Found,
    second: Found,
) -> Result<Found, Stop>
    requires { record {
      first_room : first.height < left;
      second_room : second.height < left;
    } }
    ensures { MatchResult result (λ found. found ≡ nodes.joined op first second) (λ stop. stop ≡ Memory) }
{
    let outer = across(first.outer, second.outer);
    let parts = first.height.max(second.height);
    let kind = ExprKind::Binary(op, first.expr, second.expr);
    node(alloc, left, kind, Form::Value, parts, outer)
}

/// An assignment (JLS 15.26).
pub fn assigned(
    alloc: Global,
    left: u32,
    op: Option<Arith>,
    target: Found,
    value: Found,
) -> Result<Found, Stop>
    requires { record {
      target_room : target.height < left;
      value_room : value.height < left;
    } }
    ensures { MatchResult result (λ found. found ≡ nodes.assigned op target value) (λ stop. stop ≡ Memory) }
{
    let outer = across(target.outer, value.outer);
    let parts = target.height.max(value.height);
    let kind = ExprKind::Assign(op, target.expr, value.expr);
    node(alloc, left, kind, Form::Statement, parts, outer)
}

/// No arguments.
pub fn no_exprs(alloc: Global) -> Several
    ensures { result ≡ nodes.no_exprs }
{
    Several {
        items: List::new(alloc),
        height: 0,
    }
}

/// One more argument.
pub fn with_expr(several: Several, more: Found) -> Result<Several, Stop>
    ensures { MatchResult result (λ found. found ≡ nodes.with_expr several more) (λ stop. stop ≡ Memory) }
{
    let Several { mut items, height } = several;
    let height = height.max(more.height);
    items.push(more.expr.into_inner())?;
    Ok(Several { items, height })
}

/// The arguments as far as the closing parenthesis.
pub fn all_args(several: Several, end: Span) -> Args
    ensures { result ≡ nodes.all_args several end }
{
    Args {
        items: several.items,
        height: several.height,
        end,
    }
}

/// Where the type of a new array starts: at its first annotation, or at its base.
fn type_start(annots: &List<Annot>, base: Span) -> Span
    ensures { result ≡ nodes.type_start annots.now base }
{
    match annots.as_slice() {
        [] => base,
        [first, ..] => first.span,
    }
}

/// The type of a new array.
pub fn created_type(base: At<BaseTree>, notes: Notes, brackets: At<u32>) -> FoundType
    requires room { notes.height ≤ 3 }
    ensures { result ≡ nodes.created_type base notes brackets }
{
    let start = type_start(&notes.annots, base.span);
    let height = 1 + base_height(&base.value).max(notes.height);
    FoundType {
        ty: TypeTree {
            base: base.value,
            annots: notes.annots,
            depth: brackets.value,
            span: across(start, brackets.span),
        },
        height,
    }
}

/// A new array of a length (JLS 15.10.1), with the place of its last token.
pub fn new_array(
    alloc: Global,
    left: u32,
    start: Span,
    ty: FoundType,
    length: Found,
    end: Span,
) -> Result<Found, Stop>
    requires { record {
      type_room : ty.height < left;
      length_room : length.height < left;
    } }
    ensures { MatchResult result (λ found. found ≡ nodes.new_array start ty length end) (λ stop. stop ≡ Memory) }
{
    let parts = ty.height.max(length.height);
    let kind = ExprKind::NewArray(ty.ty, length.expr);
    node(alloc, left, kind, Form::Array, parts, across(start, end))
}

/// A new array of these entries (JLS 15.10.1).
pub fn new_items(
    alloc: Global,
    left: u32,
    start: Span,
    ty: FoundType,
    entries: FoundItems,
) -> Result<Found, Stop>
    requires { record {
      type_room : ty.height < left;
      entries_room : entries.height < left;
    } }
    ensures { MatchResult result (λ found. found ≡ nodes.new_items start ty entries) (λ stop. stop ≡ Memory) }
{
    let outer = across(start, entries.end);
    let parts = ty.height.max(entries.height);
    let kind = ExprKind::NewItems(ty.ty, entries.items);
    node(alloc, left, kind, Form::Array, parts, outer)
}

/// An expression as an initialiser (JLS 8.3).
pub fn value_init(alloc: Global, left: u32, value: Found) -> Result<FoundInit, Stop>
    requires room { value.height < left }
    ensures { MatchResult result (λ found. found ≡ nodes.value_init value) (λ stop. stop ≡ Memory) }
{
    let Found {
        expr,
        height,
        outer,
        ..
    } = value;
    let init = Boxed::new(alloc, Init::Value(expr.into_inner()))?;
    Ok(FoundInit {
        init,
        height: height + 1,
        end: outer,
    })
}

/// Entries in braces as an initialiser (JLS 10.6).
pub fn items_init(
    alloc: Global,
    left: u32,
    brace: Span,
    entries: FoundItems,
) -> Result<FoundInit, Stop>
    requires room { entries.height < left }
    ensures { MatchResult result (λ found. found ≡ nodes.items_init brace entries) (λ stop. stop ≡ Memory) }
{
    let FoundItems { items, height, end } = entries;
    let init = Boxed::new(alloc, Init::Items(items, across(brace, end)))?;
    Ok(FoundInit {
        init,
        height: height + 1,
        end,
    })
}

/// No entries.
pub fn no_inits(alloc: Global, end: Span) -> FoundItems
    ensures { result ≡ nodes.no_inits end }
{
    FoundItems {
        items: List::new(alloc),
        height: 0,
        end,
    }
}

/// One more entry.
pub fn with_init(entries: FoundItems, more: FoundInit) -> Result<FoundItems, Stop>
    ensures { MatchResult result (λ found. found ≡ nodes.with_init entries more) (λ stop. stop ≡ Memory) }
{
    let FoundItems {
        mut items,
        height,
        ..
    } = entries;
    let height = height.max(more.height);
    items.push(more.init.into_inner())?;
    Ok(FoundItems {
        items,
        height,
        end: more.end,
    })
}

/// The entries as far as the closing brace.
pub fn closed_by(entries: FoundItems, end: Span) -> FoundItems
    ensures { result ≡ nodes.closed_by entries end }
{
    FoundItems {
        items: entries.items,
        height: entries.height,
        end,
    }
}
