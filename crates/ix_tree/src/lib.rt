//! The tree of a source, for all the forms that the language has.
//!
//! What goes in: nothing; these are types alone. What comes out: what a parser builds and every later layer reads.
//! The contract: a contract sees a tree as its value, so that two equal trees in two places are equal.
//! It stands on the texts and lists of `ix_text` and the operators of `ix_num`.
//! It never looks at tokens, at what a name means, or at a rule.
#![tactic(auto)]

mod annot;
mod decl;
mod expr;
mod stmt;

pub use annot::{Annot, AnnotArg, AnnotValue, BaseTree, Ident, Mods, TypeTree};
pub use decl::{ClassDecl, LocalDecl, Member, MethodDecl, Unit};
pub use expr::{BinaryOp, Expr, ExprKind, Init, UnaryOp};
pub use stmt::{Stmt, StmtKind};
