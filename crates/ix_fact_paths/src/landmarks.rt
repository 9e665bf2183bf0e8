//! The landmarks next to a number. A method's landmarks rise: there they are found by binary search.

ghost use Rattle.std.specs.Prelude.{◌≡◌, int_le, IfSome, IsTrue, IsFalse, Some};
ghost use Rattle.ix_num.specs.Ints.{IsInt};
ghost use Rattle.ix_facts.specs.Bounds.{when};
ghost use Rattle.ix_facts.specs.Round as round;
ghost use Rattle.ix_facts.specs.Round.{Rises};

use ix_facts::{greater, lesser};

/// The landmark, where it is at most the number.
fn at_most(mark: i32, n: i64) -> Option<i64>
    ensures { record {
      mark : result ≡ when (int_le mark n) (Some mark);
      int : IfSome result IsInt;
    } }
{
    if mark as i64 <= n {
        Some(mark as i64)
    } else {
        None
    }
}

/// The landmark, where it is at least the number.
fn at_least(mark: i32, n: i64) -> Option<i64>
    ensures { record {
      mark : result ≡ when (int_le n mark) (Some mark);
      int : IfSome result IsInt;
    } }
{
    if n <= mark as i64 {
        Some(mark as i64)
    } else {
        None
    }
}

/// The greatest of any landmarks that is at most the number.
fn greatest_below(marks: &[i32], n: i64) -> Option<i64>
    ensures { record {
      mark : result ≡ round.mark_below marks.now n;
      int : IfSome result IsInt;
    } }
{
    let mut found = None;
    for mark in marks {
        found = greater(found, at_most(*mark, n));
    }
    found
}

/// The least of any landmarks that is at least the number.
fn least_above(marks: &[i32], n: i64) -> Option<i64>
    ensures { record {
      mark : result ≡ round.mark_above marks.now n;
      int : IfSome result IsInt;
    } }
{
    let mut found = None;
    for mark in marks {
        found = lesser(found, at_least(*mark, n));
    }
    found
}

/// The last of rising landmarks that is at most the number.
fn last_below(marks: &[i32], n: i64) -> Option<i64>
    requires rises { Rises marks.now }
    ensures mark { result ≡ round.mark_below marks.now n }
    ensures int { IfSome result IsInt }
{
    let count = marks.partition_point(|mark| *mark as i64 <= n);
    if count == 0 {
        return None;
    }
    Some(marks[count - 1] as i64)
}

/// The first of rising landmarks that is at least the number.
fn first_above(marks: &[i32], n: i64) -> Option<i64>
    requires rises { Rises marks.now }
    ensures mark { result ≡ round.mark_above marks.now n }
    ensures int { IfSome result IsInt }
{
    let count = marks.partition_point(|mark| (*mark as i64) < n);
    if count >= marks.len() {
        return None;
    }
    Some(marks[count] as i64)
}

/// Whether each landmark is below the next.
pub(crate) fn rise(marks: &[i32]) -> bool
    ensures rises { IsTrue result → Rises marks.now }
    ensures falls { IsFalse result → Rises marks.now → ⊥ }
{
    marks.is_sorted_by(|mark, next| mark < next)
}

/// The greatest landmark that is at most the number, by binary search where they are known to rise.
pub(crate) fn mark_below(marks: &[i32], rising: bool, n: i64) -> Option<i64>
    requires rises { IsTrue rising → Rises marks.now }
    ensures mark { result ≡ round.mark_below marks.now n }
    ensures int { IfSome result IsInt }
{
    if rising {
        last_below(marks, n)
    } else {
        greatest_below(marks, n)
    }
}

/// The least landmark that is at least the number, in the same ways.
pub(crate) fn mark_above(marks: &[i32], rising: bool, n: i64) -> Option<i64>
    requires rises { IsTrue rising → Rises marks.now }
    ensures mark { result ≡ round.mark_above marks.now n }
    ensures int { IfSome result IsInt }
{
    if rising {
        first_above(marks, n)
    } else {
        least_above(marks, n)
    }
}
