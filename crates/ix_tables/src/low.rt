//! The classes of lower bounds.

/// What is known of an int from below: nothing, or that it is at least -1, 0 or 1. (Checker Framework manual, Index Checker, "Lower
/// bounds": `@LowerBoundUnknown`, `@GTENegativeOne`, `@NonNegative`, `@Positive`.)
#[derive(Clone, Copy, PartialEq, Eq)]
pub enum Low {
    Unknown,
    MinusOne,
    Zero,
    One,
}

impl Low {
    ghost use Rattle.std.specs.Prelude.{◌≡◌, ◌↔◌, IsTrue};
    ghost use Rattle.ix_tables.specs.declared.low.Low.{Low};
    ghost use Rattle.ix_tables.specs.LowClasses.{AtLeast, LowBelow, class_of};
    ghost use Rattle.ix_tables.specs.Rows.{class_place};

    /// The strongest class that `n` is of.
    pub fn of_number(n: i64) -> Low
        ensures { record {
          value : result ≡ class_of n;
          holds : AtLeast result n;
          strongest : (x : Low) → AtLeast x n → LowBelow result x;
        } }
    {
        if n >= 1 {
            Low::One
        } else if n == 0 {
            Low::Zero
        } else if n == -1 {
            Low::MinusOne
        } else {
            Low::Unknown
        }
    }

    /// Whether each number of `self` is of `other`.
    pub fn is_below(self, other: Low) -> bool
        ensures { IsTrue result ↔ LowBelow self other }
    {
        self.place() >= other.place()
    }

    /// Its place in the list of classes, from 0.
    pub(crate) fn place(self) -> u8
        ensures { result ≡ class_place self }
    {
        match self {
            Low::Unknown => 0,
            Low::MinusOne => 1,
            Low::Zero => 2,
            Low::One => 3,
        }
    }
}
