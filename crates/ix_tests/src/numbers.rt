//! Rows of questions about numbers, each with its answer.

use ix_num::{Arith, Interval, Rel, java, java_neg, java_not, wrap};
use ix_tables::{Low, key_table, low_table};
use std::process::Abort;

/// A question and its answer.
#[derive(Clone, Copy)]
pub enum Row {
    /// an operator, two ints, and what Java computes; `None` where it throws
    Java(Arith, i32, i32, Option<i32>),
    /// x, then -x
    Negated(i32, i32),
    /// x, then ~x
    Flipped(i32, i32),
    /// a number that may not fit, and the int with the same low 32 bits
    Wrapped(i128, i32),
    /// a relation, two ints, and whether it holds of them
    Related(Rel, i32, i32, bool),
    /// an operator, two intervals of ints, and the interval of all results
    Results(Arith, Interval, Interval, Interval),
    /// two intervals, and their common numbers
    Meet(Interval, Interval, Interval),
    /// two intervals, and the least interval around both
    Hull(Interval, Interval, Interval),
    /// an interval of ints, and that of all -x
    NegatedAll(Interval, Interval),
    /// an interval, and that of all ~x
    FlippedAll(Interval, Interval),
    /// an interval, and whether it is empty
    Empty(Interval, bool),
    /// an interval, a number, and whether it is in it
    Includes(Interval, i64, bool),
    /// two intervals, and whether the first lies within the second
    Within(Interval, Interval, bool),
    /// an operator, the classes of the operands, the class of the result, and whether that needs a result that fits
    Class(Arith, Low, Low, Low, bool),
    /// a number and its class
    ClassOf(i64, Low),
    /// two classes, and whether the first is below the second
    Below(Low, Low, bool),
    /// a rule's number and its key
    Key(u8, Option<&'static str>),
}

/// Whether the answer is right.
fn is_so(row: &Row) -> bool {
    match *row {
        Row::Java(op, x, y, answer) => java(op, x, y) == answer,
        Row::Negated(x, answer) => java_neg(x) == answer,
        Row::Flipped(x, answer) => java_not(x) == answer,
        Row::Wrapped(number, low) => wrap(number) == low,
        Row::Related(rel, x, y, answer) => rel.holds(x, y) == answer,
        Row::Class(op, x, y, class, fits) => has_class(op, x, y, class, fits),
        Row::ClassOf(number, class) => Low::of_number(number) == class,
        Row::Below(x, y, answer) => x.is_below(y) == answer,
        Row::Key(rule, key) => key_table().key(rule) == key,
        _ => is_so_of_intervals(row),
    }
}

fn has_class(op: Arith, x: Low, y: Low, class: Low, fits: bool) -> bool {
    low_table().find(op, x, y) == class && low_table().needs_fits(op, x, y) == fits
}

fn is_so_of_intervals(row: &Row) -> bool {
    match *row {
        Row::Results(op, x, y, all) => is_same(results(op, x, y), all),
        Row::Meet(x, y, common) => is_same(x.meet(y), common),
        Row::Hull(x, y, around) => is_same(x.hull(y), around),
        Row::NegatedAll(x, answer) => is_same(x.meet(Interval::ALL_INTS).neg(), answer),
        Row::FlippedAll(x, answer) => is_same(x.not(), answer),
        Row::Empty(x, answer) => x.is_empty() == answer,
        Row::Includes(x, number, answer) => x.includes(number) == answer,
        Row::Within(x, y, answer) => x.is_within(y) == answer,
        _ => false,
    }
}

fn is_same(found: Interval, wanted: Interval) -> bool {
    found.lo == wanted.lo && found.hi == wanted.hi
}

fn results(op: Arith, x: Interval, y: Interval) -> Interval {
    Interval::of_op(op, x.meet(Interval::ALL_INTS), y.meet(Interval::ALL_INTS))
}

/// Each row has the right answer.
pub fn agree<R: Abort>(rt: &R, rows: &[Row]) {
    for number in 0..rows.len() {
        assert!(rt; is_so(&rows[number]), "row {number}, from 0");
    }
}
