//! The comparisons of two ints.

ghost use Rattle.std.specs.Prelude.{◌↔◌, IsTrue};

/// A comparison of two ints: `<`, `<=`, `>`, `>=`, `==` or `!=` (JLS 15.20.1, 15.21.1).
#[derive(Clone, Copy)]
pub enum Rel {
    Lt,
    Le,
    Gt,
    Ge,
    Eq,
    Ne,
}

impl Rel {
    ghost use Rattle.ix_num.specs.Comparisons.{Compares};

    /// Whether `x` and `y` stand in this relation.
    pub fn holds(self, x: i32, y: i32) -> bool
        ensures { IsTrue result ↔ Compares self x y }
    {
        match self {
            Rel::Lt => x < y,
            Rel::Le => x <= y,
            Rel::Gt => x > y,
            Rel::Ge => x >= y,
            Rel::Eq => x == y,
            Rel::Ne => x != y,
        }
    }
}
