//! Drawn facts: many, the same for the same start. The independent checker draws the same ones.

ghost use Rattle.std.specs.Prelude.{◌<◌};

use crate::said::parts_of;
use ix_core::{Fact, Path, PathOff};
use std::alloc::{AllocError, Global};

/// The next of a sequence of numbers, below a limit.
fn draw(state: &mut u32, limit: u32) -> u32
    requires some { 0 < limit }
    ensures below { result < limit }
{
    let next = (u64::from(*state) * 1_103_515_245 + 12_345) % 2_147_483_648;
    *state = next as u32;
    (*state / 65_536) % limit
}

fn number(state: &mut u32) -> i32 {
    draw(state, 41) as i32 - 20
}

fn an_int(state: &mut u32) -> Path {
    match draw(state, 36) {
        0 => Path::FieldOf(60, 0),
        s => Path::Slot(s),
    }
}

fn an_array(state: &mut u32) -> Path {
    match draw(state, 6) {
        0 => Path::FieldOf(60, 1),
        s => Path::Slot(40 + s),
    }
}

fn an_offset(state: &mut u32) -> PathOff {
    match draw(state, 3) {
        0 => PathOff::Nothing,
        1 => PathOff::Plus(an_int(state)),
        _ => PathOff::Minus(an_int(state)),
    }
}

fn a_range(state: &mut u32) -> (i64, i64) {
    let low = i64::from(number(state));
    let more = i64::from(draw(state, 60));
    (low, low + more)
}

/// A difference of two ints; where the same is drawn twice, a sum.
fn a_difference(state: &mut u32) -> Fact {
    let p = an_int(state);
    let q = an_int(state);
    if p == q {
        Fact::Sum(p, q, an_int(state))
    } else {
        Fact::Less(p, q, number(state))
    }
}

fn a_bound(state: &mut u32) -> Fact {
    let p = an_int(state);
    let a = an_array(state);
    let offset = an_offset(state);
    Fact::Upper(p, a, offset, number(state))
}

fn a_sum(state: &mut u32) -> Fact {
    let t = an_int(state);
    let y = an_int(state);
    Fact::Sum(t, y, an_int(state))
}

fn a_length(state: &mut u32) -> Fact {
    let a = an_array(state);
    let low = i64::from(draw(state, 5));
    let more = i64::from(draw(state, 90));
    Fact::LenRng(a, low, low + more)
}

fn a_fact(state: &mut u32) -> Fact {
    match draw(state, 12) {
        0 | 1 => {
            let p = an_int(state);
            let (low, high) = a_range(state);
            Fact::Rng(p, low, high)
        }
        2 => a_length(state),
        3 => {
            let p = an_int(state);
            Fact::Low(p, draw(state, 3) as i32 - 1)
        }
        4 => {
            let p = an_int(state);
            Fact::IsLen(p, an_array(state))
        }
        5 => {
            let p = an_int(state);
            Fact::Search(p, an_array(state))
        }
        6 => {
            let p = an_int(state);
            Fact::Neg(p, an_array(state))
        }
        7 => a_sum(state),
        8 | 9 => a_difference(state),
        _ => a_bound(state),
    }
}

/// That many facts.
pub fn drawn_facts(alloc: Global, start: u32, count: u32) -> Result<Vec<Fact>, AllocError> {
    let mut state = start;
    let mut facts = Vec::new(alloc);
    for _ in 0..count {
        facts.push(a_fact(&mut state))?;
    }
    Ok(facts)
}

/// The checksum with a number more: other numbers give another one, but for rare ones.
fn with(sum: i64, number: i64) -> i64 {
    sum.wrapping_mul(31).wrapping_add(number)
}

fn with_path(sum: i64, path: &Path) -> i64 {
    match *path {
        Path::Slot(slot) => with(with(sum, 1), i64::from(slot)),
        Path::FieldOf(slot, field) => {
            with(with(with(sum, 2), i64::from(slot)), i64::from(field))
        }
    }
}

fn with_offset(sum: i64, offset: &PathOff) -> i64 {
    match *offset {
        PathOff::Nothing => with(sum, 0),
        PathOff::Plus(path) => with_path(with(sum, 1), &path),
        PathOff::Minus(path) => with_path(with(sum, 2), &path),
    }
}

/// The checksum with the parts of a fact.
pub fn with_fact(sum: i64, fact: &Fact) -> i64 {
    let part = parts_of(fact);
    let named = with_path(with(sum, i64::from(part.variant)), &part.first);
    let all = with_offset(with_path(named, &part.second), &part.offset);
    with(with(all, part.low), part.high)
}
