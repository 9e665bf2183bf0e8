//! What an annotation may name, what it stands on, and what it gives.

use ix_core::{Claim, Name, Post, Type_};
use ix_text::{List, Text};
use std::alloc::AllocError;

/// What an annotation stands on.
#[derive(Clone, Copy)]
pub enum Target {
    Int,
    /// The ints in the innermost cells of an array.
    Element,
    Array,
    /// A method whose result isn't boolean.
    Method,
    BooleanMethod,
    Constructor,
    /// What no annotation fits.
    Other,
}

/// What an annotation may name, and what it stands on.
#[derive(Drop)]
pub struct Scope {
    /// The parameters of its method, in order.
    pub params: List<(Text, Type_)>,
    /// The locals in scope, each with its number, and the local that it stands on.
    pub locals: List<(Text, Type_, u32)>,
    /// The fields of `this`, each with its number, whether it is inherited, and whether it is final.
    pub fields: List<(Text, Type_, u32, bool, bool)>,
    pub target: Target,
    /// The declaration that it stands on; none for a result, a method, a constructor and the creation of an array.
    pub own: Option<Name>,
}

/// What a variable holds, as far as annotations ask.
#[derive(Clone, Copy)]
pub enum Holds {
    Int,
    Array,
    Other,
}

/// A variable that an annotation names.
#[derive(Clone, Copy)]
pub struct Found {
    pub name: Name,
    pub holds: Holds,
    /// Whether it is an inherited field that isn't final.
    pub may_change: bool,
}

/// What an annotation gives.
#[derive(Drop)]
pub struct Claims {
    pub list: List<Claim>,
    /// Whether its method or constructor is side-effect-free.
    pub effect_free: bool,
    /// What its method promises where it returns.
    pub posts: List<Post>,
}

/// Why an annotation gives nothing.
#[derive(Clone, Copy)]
pub enum AnnotError {
    /// `unknown.annotation`
    Unknown,
    /// `bad.argument`
    BadArgument,
    /// `bad.name`
    BadName,
    /// `wrong.target`
    WrongTarget,
    /// `inherited.name`
    InheritedName,
    /// It counts more claims than a declaration may have.
    TooMany,
    /// Want of memory.
    Memory,
}

impl From<AllocError> for AnnotError {
    ghost use Rattle.std.specs.Prelude.{◌≡◌};
    ghost use Rattle.ix_annot.specs.declared.scope.AnnotError.TheVariants.{Memory};

    ghost from_gives = { λ _ error. error ≡ Memory };

    fn from(_error: AllocError) -> AnnotError {
        AnnotError::Memory
    }
}
