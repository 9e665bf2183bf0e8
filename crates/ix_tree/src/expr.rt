//! Expressions (JLS 15) and initialisers (JLS 8.3, 10.6).

use crate::annot::{Ident, TypeTree};
use ix_num::{Arith, Rel};
use ix_text::{Boxed, List, Span};

/// An operator with one operand (JLS 15.15).
#[derive(Clone, Copy)]
pub enum UnaryOp {
    /// `+`
    Plus,
    /// `-`
    Minus,
    /// `!`
    Not,
    /// `~`
    Flip,
}

/// An operator with two operands (JLS 15.17 to 15.24).
#[derive(Clone, Copy)]
pub enum BinaryOp {
    Num(Arith),
    Compare(Rel),
    /// `&&`
    AndAlso,
    /// `||`
    OrElse,
}

/// The initialiser of a variable or of an array's entry (JLS 8.3, 10.6).
#[cycle(tree)]
pub enum Init {
    Value(Expr),
    Items(List<Init>, Span),
}

impl Drop for Init {
    #[cycle(tree)]
    fn drop(self) {
        match self {
            Init::Value(value) => drop(value),
            Init::Items(items, _) => drop(items),
        }
    }
}

/// An expression, whose span has no parentheses that stand around it.
#[cycle(tree)]
pub struct Expr {
    pub kind: ExprKind,
    pub span: Span,
}

impl Drop for Expr {
    #[cycle(tree)]
    fn drop(self) {
        match self {
            Expr { kind, span: _ } => drop(kind),
        }
    }
}

/// The forms of expression. Parentheses leave no node.
#[cycle(tree)]
pub enum ExprKind {
    /// The low 32 bits of an int literal (JLS 3.10.1).
    Int(i32),
    Bool(bool),
    Null,
    This,
    Name(Ident),
    /// `e.name` (JLS 15.11)
    Select(Boxed<Expr>, Ident),
    /// `array[index]` (JLS 15.10.3)
    Index(Boxed<Expr>, Boxed<Expr>),
    /// `name(args)` or `e.name(args)` (JLS 15.12)
    Call(Option<Boxed<Expr>>, Ident, List<Expr>),
    /// `new Name(args)` (JLS 15.9)
    New(Ident, List<Expr>),
    /// `new type[length]` (JLS 15.10.1)
    NewArray(TypeTree, Boxed<Expr>),
    /// `new type[] { .. }` (JLS 15.10.1)
    NewItems(TypeTree, List<Init>),
    Unary(UnaryOp, Boxed<Expr>),
    Binary(BinaryOp, Boxed<Expr>, Boxed<Expr>),
    /// `target = e`, or with an operator `target op= e` (JLS 15.26)
    Assign(Option<Arith>, Boxed<Expr>, Boxed<Expr>),
    /// `++` or `--`, behind its target or before it (JLS 15.14, 15.15)
    Step {
        up: bool,
        after: bool,
        target: Boxed<Expr>,
    },
}

impl Drop for ExprKind {
    #[cycle(tree)]
    fn drop(self) {
        match self {
            ExprKind::Int(_) => {}
            ExprKind::Bool(_) => {}
            ExprKind::Null => {}
            ExprKind::This => {}
            ExprKind::Name(name) => drop(name),
            ExprKind::Select(object, name) => {
                drop(object);
                drop(name)
            }
            ExprKind::Index(array, index) => {
                drop(array);
                drop(index)
            }
            ExprKind::Call(object, name, args) => {
                drop(object);
                drop(name);
                drop(args)
            }
            ExprKind::New(name, args) => {
                drop(name);
                drop(args)
            }
            ExprKind::NewArray(ty, length) => {
                drop(ty);
                drop(length)
            }
            ExprKind::NewItems(ty, items) => {
                drop(ty);
                drop(items)
            }
            ExprKind::Unary(_, operand) => drop(operand),
            ExprKind::Binary(_, left, right) => {
                drop(left);
                drop(right)
            }
            ExprKind::Assign(_, target, value) => {
                drop(target);
                drop(value)
            }
            ExprKind::Step {
                up: _,
                after: _,
                target,
            } => drop(target),
        }
    }
}
