//! What the rules give: nodes with their heights. The height of a node is 1 plus the greatest height of its parts, and a pair of parentheses
//! round an expression counts as a node. Each is at most the height that was left for it.

use ix_text::{Boxed, List, Span};
use ix_tree::{Annot, Expr, Init, LocalDecl, Stmt, TypeTree};

/// A value with its place.
#[derive(Drop)]
pub struct At<V> {
    pub value: V,
    pub span: Span,
}

/// What an expression may be used as, beside a value.
#[derive(Clone, Copy)]
pub enum Form {
    /// It may be assigned to: a name, a field or an element, without parentheses (JLS 15.26).
    Variable,
    /// It may stand as a statement: an assignment, a step, a call or the creation of an object (JLS 14.8).
    Statement,
    /// It creates an array, so that no index may follow (JLS 15.10.3).
    Array,
    /// None of these.
    Value,
}

/// Expressions with commas between.
#[derive(Drop)]
pub struct Several {
    pub items: List<Expr>,
    /// The greatest height of one, 0 where there is none.
    pub height: u32,
}

/// An expression.
#[derive(Drop)]
pub struct Found {
    pub expr: Boxed<Expr>,
    pub form: Form,
    pub height: u32,
    /// From its first token to its last one, parentheses round it included.
    pub outer: Span,
}

/// The arguments of a call.
#[derive(Drop)]
pub struct Args {
    pub items: List<Expr>,
    /// The greatest height of an argument, 0 where there is none.
    pub height: u32,
    /// The closing parenthesis.
    pub end: Span,
}

/// An initialiser.
#[derive(Drop)]
pub struct FoundInit {
    pub init: Boxed<Init>,
    pub height: u32,
    /// Its last token, as far as its end.
    pub end: Span,
}

/// The initialisers in braces.
#[derive(Drop)]
pub struct FoundItems {
    pub items: List<Init>,
    /// The greatest height of an entry, 0 where there is none.
    pub height: u32,
    /// The closing brace.
    pub end: Span,
}

/// A type.
#[derive(Drop)]
pub struct FoundType {
    pub ty: TypeTree,
    pub height: u32,
}

/// Annotations.
#[derive(Drop)]
pub struct Notes {
    pub annots: List<Annot>,
    /// The greatest height of one, 0 where there is none.
    pub height: u32,
}

/// Declarations of variables.
#[derive(Drop)]
pub struct FoundDecls {
    pub decls: List<LocalDecl>,
    /// The greatest height of one, 0 where there is none.
    pub height: u32,
    /// Their last token, as far as its end.
    pub end: Span,
}

/// A statement.
#[derive(Drop)]
pub struct FoundStmt {
    pub stmt: Boxed<Stmt>,
    pub height: u32,
}
