//! Identifiers, annotations, modifiers and types as they are written.

use ix_text::{List, Span, Text};

/// An identifier (JLS 3.8) and its place.
pub struct Ident {
    pub text: Text,
    pub span: Span,
}

// By hand, here and below, so that a value is let go of by a call and not written out at each exit of the crates above.
impl Drop for Ident {
    fn drop(self) {
        match self {
            Ident { text, span: _ } => drop(text),
        }
    }
}

/// The value of an argument of an annotation.
pub enum AnnotValue {
    /// An int literal, with a minus before it or without.
    Number(i64),
    /// `true` or `false`.
    Truth(bool),
    /// A string, or the strings in braces, each as it is written between its quotes.
    Texts(List<Text>),
}

impl Drop for AnnotValue {
    fn drop(self) {
        match self {
            AnnotValue::Number(_) => {}
            AnnotValue::Truth(_) => {}
            AnnotValue::Texts(texts) => drop(texts),
        }
    }
}

/// An argument of an annotation (JLS 9.7): `value`, or `name = value`.
pub struct AnnotArg {
    pub name: Option<Ident>,
    pub value: AnnotValue,
    pub span: Span,
}

impl Drop for AnnotArg {
    fn drop(self) {
        match self {
            AnnotArg {
                name,
                value,
                span: _,
            } => {
                drop(name);
                drop(value)
            }
        }
    }
}

/// An annotation (JLS 9.7), from its `@` to its end.
pub struct Annot {
    pub name: Ident,
    pub args: List<AnnotArg>,
    pub span: Span,
}

impl Drop for Annot {
    fn drop(self) {
        match self {
            Annot {
                name,
                args,
                span: _,
            } => {
                drop(name);
                drop(args)
            }
        }
    }
}

/// What a type stands on.
pub enum BaseTree {
    Int,
    Boolean,
    Named(Ident),
}

impl Drop for BaseTree {
    fn drop(self) {
        match self {
            BaseTree::Int => {}
            BaseTree::Boolean => {}
            BaseTree::Named(name) => drop(name),
        }
    }
}

/// A type as it is written (JLS 4): a base, and an array of it where `depth` isn't 0.
pub struct TypeTree {
    pub base: BaseTree,
    /// The annotations between the base and the first pair of brackets, which are on the array.
    pub annots: List<Annot>,
    /// The number of pairs of brackets.
    pub depth: u32,
    pub span: Span,
}

impl Drop for TypeTree {
    fn drop(self) {
        match self {
            TypeTree {
                base,
                annots,
                depth: _,
                span: _,
            } => {
                drop(base);
                drop(annots)
            }
        }
    }
}

/// The modifiers of a declaration (JLS 8.1.1, 8.3.1, 8.4.3). `public` and `protected` have no effect and leave nothing.
pub struct Mods {
    pub is_static: bool,
    pub is_final: bool,
    pub is_private: bool,
    pub annots: List<Annot>,
}

impl Drop for Mods {
    fn drop(self) {
        match self {
            Mods {
                is_static: _,
                is_final: _,
                is_private: _,
                annots,
            } => drop(annots),
        }
    }
}
