//! Methods, classes and whole sources (JLS 7.3, 8.1, 8.4, 8.8).

use crate::declarations::{FoundMods, Params};
use crate::found::FoundType;
use ix_text::{List, Span};
use ix_tree::{ClassDecl, Expr, Ident, Member, Stmt, Unit};

/// The statements of a block.
#[derive(Drop)]
pub struct Stmts {
    pub stmts: List<Stmt>,
    /// The greatest height of one, 0 where there is none.
    pub height: u32,
}

/// What stands in the braces of a method or a constructor.
#[derive(Drop)]
pub struct Body {
    /// The arguments of `super(..)`, where a constructor has that line.
    pub parent_args: Option<List<Expr>>,
    pub stmts: List<Stmt>,
    /// The greatest height of an argument or a statement, 0 where there is none.
    pub height: u32,
    /// The closing brace.
    pub end: Span,
}

/// What stands in a method's head before its parameters.
#[derive(Drop)]
pub struct Head {
    /// Where the method begins.
    pub start: Span,
    pub mods: FoundMods,
    /// The type of the result; none for `void` and for a constructor.
    pub result: Option<FoundType>,
    pub constructor: bool,
    pub name: Ident,
}

/// What stands in a method's head behind its name, and its body.
#[derive(Drop)]
pub struct Behind {
    pub params: Params,
    pub body: Body,
}

/// Members of a class.
#[derive(Drop)]
pub struct Members {
    pub members: List<Member>,
    /// The greatest height of one, 0 where there is none.
    pub height: u32,
}

/// A class.
#[derive(Drop)]
pub struct FoundClass {
    pub class: ClassDecl,
    pub height: u32,
}

/// Classes.
#[derive(Drop)]
pub struct Classes {
    pub classes: List<ClassDecl>,
    /// The greatest height of one, 0 where there is none.
    pub height: u32,
}

/// A whole source.
#[derive(Drop)]
pub struct FoundUnit {
    pub unit: Unit,
    pub height: u32,
}
