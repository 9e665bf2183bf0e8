//! Constants: `static final int` with a literal, optionally behind a minus.

ghost use Rattle.std.specs.Prelude.{◌≡◌};
ghost use Rattle.ix_meaning.specs.Members as spec;
ghost use Rattle.ix_class_members.specs.Literals.{literal_of};

use ix_num::java_neg;
use ix_tree::{BaseTree, Expr, ExprKind, Init, LocalDecl, TypeTree, UnaryOp};

fn int_literal(e: &Expr) -> Option<i32>
    ensures { result ≡ (literal_of e.now).int }
{
    match &e.kind {
        ExprKind::Int(n) => Some(*n),
        _ => None,
    }
}

fn signed_literal(e: &Expr) -> Option<i32>
    ensures { result ≡ (literal_of e.now).value }
{
    match &e.kind {
        ExprKind::Int(n) => Some(*n),
        ExprKind::Unary(UnaryOp::Minus, operand) => match int_literal(operand.get()) {
            None => None,
            Some(n) => Some(java_neg(n)),
        },
        _ => None,
    }
}

fn literal(init: &Init) -> Option<i32>
    ensures { result ≡ spec.literal init.now }
{
    match init {
        Init::Value(e) => signed_literal(e),
        Init::Items(_, _) => None,
    }
}

fn is_int_type(ty: &TypeTree) -> bool
    ensures { result ≡ spec.is_int_type ty.now }
{
    matches!(ty.base, BaseTree::Int) && ty.depth == 0
}

/// The value of a constant; none of a declaration that is none.
pub fn constant(decl: &LocalDecl) -> Option<i32>
    ensures { result ≡ spec.constant decl.now }
{
    if !decl.mods.get().is_final || !is_int_type(decl.ty.get()) {
        return None;
    }
    match &decl.init {
        None => None,
        Some(init) => literal(init),
    }
}
