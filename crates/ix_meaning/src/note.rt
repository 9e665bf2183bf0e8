//! What names mean, which rules are broken, and what a tree says in the order of its text.

use ix_annot::Claims;
use ix_core::Type_;
use ix_text::{List, Span};

/// What a use means.
#[derive(Clone, Copy)]
pub enum Meaning {
    /// The local of that number in its method.
    Local(u32),
    Param(u32),
    /// The instance field of that number in the source.
    FieldNamed(u32),
    /// The value of a `static final int`.
    Constant(i32),
    ClassNamed(u32),
    MethodNamed(u32),
    /// The length of an array.
    LengthOf,
}

/// The rules on names, types and annotations, in the order in which errors at one place are listed.
#[derive(Clone, Copy)]
pub enum Rule {
    UnknownName,
    DuplicateName,
    TypeMismatch,
    WrongArguments,
    CyclicClass,
    NotStatic,
    FinalAssigned,
    NotAssignable,
    BreakOutside,
    UnknownAnnotation,
    BadArgument,
    BadName,
    WrongTarget,
    InheritedName,
}

/// An error: the rule that is broken, and where.
#[derive(Clone, Copy)]
pub struct NameError {
    pub rule: Rule,
    pub span: Span,
}

/// A count that is limited.
#[derive(Clone, Copy)]
pub enum Which {
    Classes,
    Methods,
    Parameters,
    Claims,
    Inheritance,
    Loops,
    Slots,
    Ops,
}

/// Why a source has no table.
#[derive(Drop)]
pub enum NameErrors {
    Errors(List<NameError>),
    /// A limit, and the place that passes it.
    Limit(Which, u32),
    Memory,
}

/// What a declaration says of what it declares.
#[derive(Drop)]
pub struct Declared {
    /// The type; of a method that of its result, and of a constructor `Void`.
    pub ty: Type_,
    /// The claims, each once.
    pub claims: Claims,
}

/// One thing that the tree says, in the order of the text.
pub enum Note {
    /// The use at that place means this.
    Use(Span, Meaning),
    /// The expression at that place has this type.
    Typed(Span, Type_),
    /// The name at that place is declared so.
    Declares(Span, Declared),
    /// A rule is broken.
    Wrong(NameError),
    /// A rule on annotations is broken, at the annotation.
    WrongAnnot(NameError),
}

impl Drop for Note {
    fn drop(self) {
        match self {
            Note::Use(_, _) => {}
            Note::Typed(_, ty) => drop(ty),
            Note::Declares(_, declared) => drop(declared),
            Note::Wrong(_) => {}
            Note::WrongAnnot(_) => {}
        }
    }
}
