//! The members of classes (JLS 8.2), as the whole source declares them.

use crate::note::Meaning;
use ix_core::Type_;
use ix_text::{List, Span, Text};

/// A field or a constant.
#[derive(Drop)]
pub struct Field {
    pub class: u32,
    pub name: Text,
    pub span: Span,
    /// None where the type's class is unknown.
    pub ty: Option<Type_>,
    pub is_static: bool,
    pub is_final: bool,
    /// What its uses mean; none for a static field that is no constant.
    pub meaning: Option<Meaning>,
}

/// A method or a constructor.
#[derive(Drop)]
pub struct Signature {
    pub class: u32,
    pub name: Text,
    pub span: Span,
    pub constructor: bool,
    pub is_static: bool,
    pub is_private: bool,
    pub params: List<Option<Type_>>,
    pub result: Option<Type_>,
}
