//! Facts in all their orders.

ghost use Rattle.std.specs.Prelude.{◌≡◌, ◌≤◌, ◌+◌, ◌∷◌, ◌++◌, [], cond, false, length, IsTrue, IsFalse, IfOk, option_to_list};
ghost use Rattle.std.specs.Vec.{vec_len, vec_capacity};
ghost use Rattle.ix_facts.specs.Facts.{orders, is_default, in_orders};

use crate::room::room_for;
use ix_core::{Fact, PathOff};
use std::alloc::{AllocError, Global};

/// The fact in its other order, if it has one.
fn turned(fact: &Fact) -> Option<Fact>
    ensures { orders fact.now ≡ fact.now ∷ option_to_list result }
{
    match *fact {
        Fact::Same(a, b) => Some(Fact::Same(b, a)),
        Fact::Sum(t, y, z) => Some(Fact::Sum(t, z, y)),
        Fact::Upper(p, a, PathOff::Plus(q), c) => Some(Fact::Upper(q, a, PathOff::Plus(p), c)),
        _ => None,
    }
}

/// Whether the fact is a range that is said of every path.
fn is_said_of_all(fact: &Fact) -> bool
    ensures { result ≡ is_default fact.now }
{
    match *fact {
        Fact::Rng(_, low, high) => low <= -2147483648 && high >= 2147483647,
        Fact::LenRng(_, low, high) => low <= 0 && high >= 2147483647,
        _ => false,
    }
}

/// Whether the fact stands in one order alone, and is no range that is said of every path.
fn has_one_order(fact: &Fact) -> bool
    ensures { record {
      tells : IsTrue result → is_default fact.now ≡ false;
      one : IsTrue result → orders fact.now ≡ fact.now ∷ [];
      two : IsFalse result → is_default fact.now ≡ false → length (orders fact.now) ≡ 2;
    } }
{
    match *fact {
        Fact::Same(_, _) | Fact::Sum(_, _, _) | Fact::Upper(_, _, PathOff::Plus(_), _) => false,
        _ => !is_said_of_all(fact),
    }
}

/// Whether the facts are those in all their orders, each in the only one that it has. It takes no memory.
pub fn have_one_order(facts: &[Fact]) -> bool
    ensures one { IsTrue result → in_orders facts.now ≡ facts.now }
    ensures more { IsFalse result → in_orders facts.now ≡ facts.now → ⊥ }
{
    for fact in facts {
        if !has_one_order(fact) {
            return false;
        }
    }
    true
}

/// Puts the fact's orders behind the others. There is room for two.
#[inline(never)]
fn push_orders(ordered: &mut Vec<Fact>, fact: &Fact)
    requires room { vec_len ordered.old + 2 ≤ vec_capacity ordered.old }
    ensures { record {
      orders : ordered.new.items ≡ ordered.old.items ++ orders fact.now;
      at_most_two : vec_len ordered.new ≤ vec_len ordered.old + 2;
      same_room : vec_capacity ordered.new ≡ vec_capacity ordered.old;
    } }
{
    ordered.push_reserved(*fact);
    if let Some(other) = turned(fact) {
        ordered.push_reserved(other);
    }
}

/// Puts the fact's orders behind the others, unless it is a range that is said of every path. There is room for two.
// Most facts have one order: to put them is a copy at the caller.
#[inline]
fn push_in_orders(ordered: &mut Vec<Fact>, fact: &Fact)
    requires room { vec_len ordered.old + 2 ≤ vec_capacity ordered.old }
    ensures { record {
      orders : ordered.new.items ≡ ordered.old.items ++ cond (is_default fact.now) [] (orders fact.now);
      at_most_two : vec_len ordered.new ≤ vec_len ordered.old + 2;
      same_room : vec_capacity ordered.new ≡ vec_capacity ordered.old;
    } }
{
    if has_one_order(fact) {
        ordered.push_reserved(*fact);
        return;
    }
    if !is_said_of_all(fact) {
        push_orders(ordered, fact);
    }
}

/// The facts, each in all its orders, but for ranges that are said of every path. The only error is want of memory.
pub fn in_all_orders(alloc: Global, facts: &[Fact]) -> Result<Vec<Fact>, AllocError>
    ensures { IfOk result (λ ordered. ordered.items ≡ in_orders facts.now) }
{
    let mut ordered = Vec::with_capacity(alloc, room_for(2 * facts.len()))?;
    for fact in facts {
        push_in_orders(&mut ordered, fact);
    }
    Ok(ordered)
}
