//! A kind of facts as a type.

ghost use Rattle.ix_facts.specs.declared.kind.Kind.{Kind};

use ix_facts::Kind;

/// The type of a kind of facts.
pub trait OneKind {
    ghost KIND: { Kind };

    const KIND: Kind;
}
