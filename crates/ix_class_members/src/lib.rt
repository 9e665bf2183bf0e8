//! The members of all classes, by their numbers and by their names, what one hides or overrides, and the types and claims that declarations write.
//!
//! What goes in: the classes of the tree; of a declaration its declarators, annotations and type. What comes out: their fields, methods and constructors, and which of them a name means in a class;
//! whether a field or a method breaks a rule on inherited members; which annotations each declarator has, its type and its claims, and what is noted of them.
//! The contract: `world` of `ix_meaning`'s `Members`, member for member, and its `Inheritance`; `Declarators`, kept by `declarators.rt`, and `Annotated`.
//! It stands on the types of `ix_symbols`, on the annotations of `ix_annot`, and on `indexmap` for names, in the order in which they are first seen.
//! It never looks at a body.
#![tactic(auto)]

mod claims;
mod constant;
mod declaration;
mod declarators;
mod hiding;
mod lists;
mod named;
mod overriding;
mod part;
mod types;
mod world;

pub use claims::{Marks, Nowhere, distinct, distinct_posts, given, of_variable};
pub use declaration::{Declaration, created, element_claims, static_field, variable};
pub use declarators::{
    Annotations, Begun, begin_with, declaration_of, field_annotations, further_annotations,
    own_annotations,
};
pub use hiding::hides;
pub use lists::{field_of, fields, method_of, methods, param_type};
pub use overriding::{clashes, differs};
pub use part::{Part, gathered, is_of_method};
pub use types::{note_class_use, target_before, written_type};
pub use world::{Called, ClassWorld, World, world_of};
