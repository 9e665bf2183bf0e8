//! Declarations: of variables (JLS 8.3, 8.4.1, 14.4), methods and constructors (JLS 8.4, 8.8), classes (JLS 8.1) and whole sources (JLS 7.3).

use crate::annot::{Ident, Mods, TypeTree};
use crate::expr::{Expr, Init};
use crate::stmt::Stmt;
use ix_text::{Joint, List, Span};

/// The declaration of one field, parameter or local. The declarators of one declaration hold its modifiers and its type jointly.
pub struct LocalDecl {
    /// The modifiers. An annotation here is on an int or on the elements of an array.
    pub mods: Joint<Mods>,
    pub ty: Joint<TypeTree>,
    pub name: Ident,
    pub init: Option<Init>,
}

impl Drop for LocalDecl {
    fn drop(self) {
        match self {
            LocalDecl {
                mods,
                ty,
                name,
                init,
            } => {
                drop(mods);
                drop(ty);
                drop(name);
                drop(init)
            }
        }
    }
}

/// The declaration of a method or a constructor.
pub struct MethodDecl {
    pub mods: Mods,
    /// The type of the result; none for `void` and for a constructor.
    pub result: Option<TypeTree>,
    pub constructor: bool,
    pub name: Ident,
    pub params: List<LocalDecl>,
    /// The arguments of `super(..)`, where a constructor has that line.
    pub parent_args: Option<List<Expr>>,
    pub body: List<Stmt>,
    pub span: Span,
}

impl Drop for MethodDecl {
    fn drop(self) {
        match self {
            MethodDecl {
                mods,
                result,
                constructor: _,
                name,
                params,
                parent_args,
                body,
                span: _,
            } => {
                drop(mods);
                drop(result);
                drop(name);
                drop(params);
                drop(parent_args);
                drop(body)
            }
        }
    }
}

/// A member of a class; a field's declaration gives one for each declarator.
pub enum Member {
    Field(LocalDecl),
    Method(MethodDecl),
}

impl Drop for Member {
    fn drop(self) {
        match self {
            Member::Field(field) => drop(field),
            Member::Method(method) => drop(method),
        }
    }
}

/// The declaration of a class.
pub struct ClassDecl {
    pub name: Ident,
    /// The class that it extends.
    pub parent: Option<Ident>,
    pub members: List<Member>,
    pub span: Span,
}

impl Drop for ClassDecl {
    fn drop(self) {
        match self {
            ClassDecl {
                name,
                parent,
                members,
                span: _,
            } => {
                drop(name);
                drop(parent);
                drop(members)
            }
        }
    }
}

/// A whole source. Package and import lines leave no node.
#[derive(Drop)]
pub struct Unit {
    pub classes: List<ClassDecl>,
}
