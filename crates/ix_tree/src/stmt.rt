//! Statements (JLS 14).

use crate::annot::Ident;
use crate::decl::LocalDecl;
use crate::expr::Expr;
use ix_text::{Boxed, List, Span};

/// A statement of a block.
#[cycle(stmt)]
pub struct Stmt {
    pub kind: StmtKind,
    pub span: Span,
}

impl Drop for Stmt {
    #[cycle(stmt)]
    fn drop(self) {
        match self {
            Stmt { kind, span: _ } => drop(kind),
        }
    }
}

/// The forms of statement.
#[cycle(stmt)]
pub enum StmtKind {
    Block(List<Stmt>),
    Empty,
    /// A declaration of locals, with one entry per declarator (JLS 14.4).
    Local(List<LocalDecl>),
    If(Expr, Boxed<Stmt>, Option<Boxed<Stmt>>),
    While(Expr, Boxed<Stmt>),
    Do(Boxed<Stmt>, Expr),
    /// The first part, the condition, the update and the body (JLS 14.14.1).
    For(List<Stmt>, Option<Expr>, List<Expr>, Boxed<Stmt>),
    Break,
    Continue,
    Return(Option<Expr>),
    /// `throw new Name(..);`
    Throw(Ident),
    /// `System.out.println(e);`
    Print(Expr),
    Run(Expr),
}

impl Drop for StmtKind {
    #[cycle(stmt)]
    fn drop(self) {
        match self {
            StmtKind::Block(stmts) => drop(stmts),
            StmtKind::Empty => {}
            StmtKind::Local(decls) => drop(decls),
            StmtKind::If(cond, when_true, when_false) => {
                drop(cond);
                drop(when_true);
                drop(when_false)
            }
            StmtKind::While(cond, body) => {
                drop(cond);
                drop(body)
            }
            StmtKind::Do(body, cond) => {
                drop(body);
                drop(cond)
            }
            StmtKind::For(first, cond, update, body) => {
                drop(first);
                drop(cond);
                drop(update);
                drop(body)
            }
            StmtKind::Break => {}
            StmtKind::Continue => {}
            StmtKind::Return(value) => drop(value),
            StmtKind::Throw(name) => drop(name),
            StmtKind::Print(value) => drop(value),
            StmtKind::Run(value) => drop(value),
        }
    }
}
