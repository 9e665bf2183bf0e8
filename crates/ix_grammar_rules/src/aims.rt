//! What a rule is asked to read, where one function reads several.

/// What a primary is read for. Where it isn't a value, the node that it ends in may have to be higher than it.
#[derive(Clone, Copy)]
pub enum Aim {
    Value,
    Statement,
    Variable,
}

/// What an expression may have to be as a part of another.
#[derive(Clone, Copy)]
pub enum Part {
    /// An expression.
    Whole,
    /// One with no operators with two operands but those of the first levels, so many.
    Level(u32),
    /// A variable (JLS 15.26).
    Variable,
}

/// Which words may stand among modifiers.
#[derive(Clone, Copy)]
pub enum Words {
    /// Those of a member of a class.
    Member,
    /// Those of a local and of a parameter.
    Local,
}
