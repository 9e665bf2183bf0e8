//! Whether two paths and two offsets are the same, and the better of two numbers.

ghost use Rattle.std.specs.Prelude.{◌≡◌};
ghost use Rattle.std.specs.Int.{int_min, int_max};
ghost use Rattle.ix_facts.specs.Bounds.{is_path, is_offset, best};

use ix_core::{Path, PathOff};

/// Whether the two paths are the same.
pub fn is_same_path(p: &Path, q: &Path) -> bool
    ensures { result ≡ is_path p.now q.now }
{
    match (*p, *q) {
        (Path::Slot(s), Path::Slot(t)) => s == t,
        (Path::FieldOf(s, f), Path::FieldOf(t, g)) => s == t && f == g,
        _ => false,
    }
}

/// Whether the two offsets are the same.
pub fn is_same_offset(x: &PathOff, o: &PathOff) -> bool
    ensures { result ≡ is_offset x.now o.now }
{
    match (*x, *o) {
        (PathOff::Nothing, PathOff::Nothing) => true,
        (PathOff::Plus(p), PathOff::Plus(q)) => is_same_path(&p, &q),
        (PathOff::Minus(p), PathOff::Minus(q)) => is_same_path(&p, &q),
        _ => false,
    }
}

/// The greater number, where none is below every number.
pub fn greater(x: Option<i64>, y: Option<i64>) -> Option<i64>
    ensures { result ≡ best int_max x y }
{
    match (x, y) {
        (None, number) | (number, None) => number,
        (Some(m), Some(n)) => Some(m.max(n)),
    }
}

/// The lesser number, where none is above every number.
pub fn lesser(x: Option<i64>, y: Option<i64>) -> Option<i64>
    ensures { result ≡ best int_min x y }
{
    match (x, y) {
        (None, number) | (number, None) => number,
        (Some(m), Some(n)) => Some(m.min(n)),
    }
}
