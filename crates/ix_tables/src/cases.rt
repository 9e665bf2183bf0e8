//! The low table: the class of a result, from the classes of the operands.

ghost use Rattle.std.specs.Prelude.{◌≡◌, All, count_by};
ghost use Rattle.ix_num.specs.declared.arith.Arith.{Arith};
ghost use Rattle.ix_tables.specs.declared.low.Low.{Low};
ghost use Rattle.ix_tables.specs.LowTable.{low_of, needs_fits_of};
ghost use Rattle.ix_tables.specs.TableLaws.{IsSound, IsBest};
ghost use Rattle.ix_tables.specs.Rows.{low_rows, answer_in, flag_in, is_for, operator_place, IsSoundRow, IsBestRow, HasFitsFlagRow};

use crate::low::Low;
use ix_num::Arith;

/// A row: the operator, the classes of its operands, the class of its result, and whether that class counts only where the exact result
/// is an int.
pub type Row = (Arith, Low, Low, Low, bool);

/// A table of rows. They stand behind a reference, so that no copy of them is ever made.
#[derive(Clone, Copy)]
pub struct CaseTable<const N: usize> {
    pub rows: &'static [Row; N],
}

macro_rules! rows {
    ($($op:ident $fits:literal: $($x:ident $y:ident $answer:ident),*;)*) => {
        [$($((Arith::$op, Low::$x, Low::$y, Low::$answer, $fits),)*)*]
    };
}

const LOW_ROWS: [Row; 80] = rows! {
    Add true: MinusOne Zero MinusOne, MinusOne One Zero,
        Zero MinusOne MinusOne, Zero Zero Zero, Zero One One,
        One MinusOne Zero, One Zero One, One One One;
    Mul true: Zero Zero Zero, Zero One Zero,
        One Zero Zero, One One One;
    Div false: MinusOne Zero MinusOne, MinusOne One MinusOne,
        Zero Zero Zero, Zero One Zero,
        One Zero Zero, One One Zero;
    Rem false: MinusOne Unknown MinusOne, MinusOne MinusOne MinusOne, MinusOne Zero MinusOne, MinusOne One MinusOne,
        Zero Unknown Zero, Zero MinusOne Zero, Zero Zero Zero, Zero One Zero,
        One Unknown Zero, One MinusOne Zero, One Zero Zero, One One Zero;
    And false: Unknown Zero Zero, Unknown One Zero,
        MinusOne MinusOne MinusOne, MinusOne Zero Zero, MinusOne One Zero,
        Zero Unknown Zero, Zero MinusOne Zero, Zero Zero Zero, Zero One Zero,
        One Unknown Zero, One MinusOne Zero, One Zero Zero, One One Zero;
    Or false: MinusOne MinusOne MinusOne, MinusOne Zero MinusOne, MinusOne One MinusOne,
        Zero MinusOne MinusOne, Zero Zero Zero, Zero One One,
        One MinusOne MinusOne, One Zero One, One One One;
    Xor false: Zero Zero Zero, Zero One Zero,
        One Zero Zero, One One Zero;
    Shr false: MinusOne Unknown MinusOne, MinusOne MinusOne MinusOne, MinusOne Zero MinusOne, MinusOne One MinusOne,
        Zero Unknown Zero, Zero MinusOne Zero, Zero Zero Zero, Zero One Zero,
        One Unknown Zero, One MinusOne Zero, One Zero Zero, One One Zero;
    Ushr false: MinusOne Unknown MinusOne, MinusOne MinusOne MinusOne, MinusOne Zero MinusOne, MinusOne One MinusOne,
        Zero Unknown Zero, Zero MinusOne Zero, Zero Zero Zero, Zero One Zero,
        One Unknown Zero, One MinusOne Zero, One Zero Zero, One One Zero;
};

/// The low table. Every pair of classes without a row, and every pair of `Sub` and `Shl`, has the answer `Unknown`.
pub fn low_table() -> CaseTable<80>
    ensures rows { result.rows.now ≡ low_rows }
    ensures answers { (op : Arith) (x y : Low) → answer_in result.rows.now op x y ≡ low_of op x y }
    ensures flags { (op : Arith) (x y : Low) → flag_in result.rows.now op x y ≡ needs_fits_of op x y }

    // Each answer holds, and no stronger one does, with a row and without.
    ensures sound { (op : Arith) (x y : Low) → IsSound op x y (answer_in result.rows.now op x y) }
    ensures best { (op : Arith) (x y : Low) → IsBest op x y (answer_in result.rows.now op x y) }

    ensures sound_rows { All IsSoundRow result.rows.now }
    ensures best_rows { All IsBestRow result.rows.now }
    ensures fits { All HasFitsFlagRow result.rows.now }
    ensures twelve_need_fits { count_by (λ r. r.4) result.rows.now ≡ 12 }
{
    CaseTable { rows: &LOW_ROWS }
}

impl CaseTable<80> {
    /// The class of the result: the answer of the first row for these operands, and `Unknown` where there is none.
    pub fn find(&self, op: Arith, x: Low, y: Low) -> Low
        ensures { result ≡ answer_in self.now.rows.now op x y }
    {
        let rows = self.rows;
        answer_in(rows, op, x, y)
    }

    /// Whether that answer counts only where the exact result is an int: the flag of the row, and false where there is none.
    pub fn needs_fits(&self, op: Arith, x: Low, y: Low) -> bool
        ensures { result ≡ flag_in self.now.rows.now op x y }
    {
        let rows = self.rows;
        flag_in(rows, op, x, y)
    }
}

fn answer_in(rows: &[Row], op: Arith, x: Low, y: Low) -> Low
    ensures { result ≡ answer_in rows.now op x y }
{
    for row in rows {
        if is_for(row, op, x, y) {
            return row.3;
        }
    }
    Low::Unknown
}

fn flag_in(rows: &[Row], op: Arith, x: Low, y: Low) -> bool
    ensures { result ≡ flag_in rows.now op x y }
{
    for row in rows {
        if is_for(row, op, x, y) {
            return row.4;
        }
    }
    false
}

/// Whether the row is for these operands.
fn is_for(row: &(Arith, Low, Low, Low, bool), op: Arith, x: Low, y: Low) -> bool
    ensures { result ≡ is_for op x y row.now }
{
    operator_place(row.0) == operator_place(op)
        && row.1.place() == x.place()
        && row.2.place() == y.place()
}

/// Its place in the list of operators, from 0.
fn operator_place(op: Arith) -> u8
    ensures { result ≡ operator_place op }
{
    match op {
        Arith::Add => 0,
        Arith::Sub => 1,
        Arith::Mul => 2,
        Arith::Div => 3,
        Arith::Rem => 4,
        Arith::And => 5,
        Arith::Or => 6,
        Arith::Xor => 7,
        Arith::Shl => 8,
        Arith::Shr => 9,
        Arith::Ushr => 10,
    }
}
