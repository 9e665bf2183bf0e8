//! Facts put at the paths that they name.

ghost use Rattle.std.specs.Prelude.{◌≡◌, ◌<◌, ◌≤◌, ◌+◌, ◌*◌, ℕ, cond, nat_eq, nat_lt, true, false, get_or, length, List, [], ◌∷◌, ◌++◌, IfOk, OnOk, IfSome, IfNone};
ghost use Rattle.std.specs.Vec.{vec_len};
ghost use Rattle.ix_core.specs.declared.fact.Path.{Path};
ghost use Rattle.ix_core.specs.declared.fact.Fact.{Fact};
ghost use Rattle.ix_fact_paths.specs.ByPath.{is_near, near_place, at_two, at_three, at_bound, at_paths, facts_at, Adds, on_it};

use crate::path_facts::PathFacts;
use ix_core::{Fact, Path, PathOff};
use ix_facts::is_same_path;
use std::alloc::{AllocError, Global};
use std::marker::Model;

/// How many slots have lists of their own, and how many fields of the object in slot 0.
const NEAR: u32 = 1024;

/// How many places near paths have.
pub const PLACES: usize = 2 * NEAR as usize;

/// For how many lists room is asked at once.
const LISTS: usize = 32;

fn place_of(number: u32, turn: usize) -> Option<usize>
    requires turn { turn ≤ 1 }
    ensures { record {
      near : IfSome result (λ place. (nat_lt number 1024 ≡ true) × (place ≡ 2 * number + turn));
      small : IfSome result (λ place. place < 2048);
      far : IfNone result (nat_lt number 1024 ≡ false);
    } }
{
    if number < NEAR {
        Some(2 * number as usize + turn)
    } else {
        None
    }
}

/// The place of a near path among the near ones: slots, and fields of the object in slot 0, in turns.
pub fn near_place(p: &Path) -> Option<usize>
    ensures { record {
      near : IfSome result (λ place. (is_near p.now ≡ true) × (place ≡ near_place p.now));
      small : IfSome result (λ place. place < 2048);
      far : IfNone result (is_near p.now ≡ false);
    } }
{
    match *p {
        Path::Slot(slot) => place_of(slot, 0),
        Path::FieldOf(slot, field) => if slot == 0 { place_of(field, 1) } else { None },
    }
}

/// Of each near path the facts that name it, by its place, and those of all other paths beside them.
#[derive(Drop)]
pub(crate) struct Places {
    pub(crate) near: Vec<PathFacts>,
    pub(crate) others: Vec<(Path, Fact)>,
}

impl Model for Places {
    ghost Value = { List (List Fact) × List (Path × Fact) };

    ghost view = { λ places. (places.near.items, places.others.items) };
}

/// Makes lists up to the place, and asks for room for more.
#[inline(never)]
fn reach(alloc: Global, near: &mut Vec<PathFacts>, place: usize) -> Result<(), AllocError>
    requires { record {
      beyond : vec_len near.old ≤ place;
      near : place < 2048;
    } }
    ensures reached { OnOk result (place < length near.new.items) }
    ensures same { OnOk result ((at : ℕ) → get_or near.new.items at [] ≡ get_or near.old.items at []) }
{
    near.reserve(place + LISTS - near.len())?;
    for _ in near.len()..place + 1 {
        near.push_reserved(PathFacts::new(alloc));
    }
    Ok(())
}

#[inline]
fn put_near(
    alloc: Global,
    near: &mut Vec<PathFacts>,
    place: usize,
    fact: &Fact,
) -> Result<(), AllocError>
    requires near { place < 2048 }
    ensures { OnOk result ((at : ℕ) → get_or near.new.items at [] ≡ get_or near.old.items at [] ++ cond (nat_eq at place) (fact.now ∷ []) []) }
{
    if place >= near.len() {
        reach(alloc, near, place)?;
    }
    near[place].push(*fact)
}

impl Places {
    fn new(alloc: Global) -> Places
        ensures { (x : Path) → facts_at result x ≡ [] }
    {
        Places {
            near: Vec::new(alloc),
            others: Vec::new(alloc),
        }
    }

    /// Puts the fact at the path, behind those that stand there.
    fn put(&mut self, alloc: Global, p: &Path, fact: &Fact) -> Result<(), AllocError>
        ensures { OnOk result (Adds self.old self.new ((p.now, fact.now) ∷ [])) }
    {
        match near_place(p) {
            Some(place) => put_near(alloc, &mut self.near, place, fact),
            None => self.others.push((*p, *fact)).map_err(AllocError::from),
        }
    }

    fn put_two(&mut self, alloc: Global, p: &Path, q: &Path, fact: &Fact) -> Result<(), AllocError>
        ensures { OnOk result (Adds self.old self.new (at_two p.now q.now fact.now)) }
    {
        self.put(alloc, p, fact)?;
        if is_same_path(q, p) {
            return Ok(());
        }
        self.put(alloc, q, fact)
    }

    fn put_three(
        &mut self,
        alloc: Global,
        p: &Path,
        q: &Path,
        r: &Path,
        fact: &Fact,
    ) -> Result<(), AllocError>
        ensures { OnOk result (Adds self.old self.new (at_three p.now q.now r.now fact.now)) }
    {
        self.put_two(alloc, p, q, fact)?;
        if is_same_path(r, p) || is_same_path(r, q) {
            return Ok(());
        }
        self.put(alloc, r, fact)
    }

    fn put_bound(
        &mut self,
        alloc: Global,
        p: &Path,
        a: &Path,
        offset: &PathOff,
        fact: &Fact,
    ) -> Result<(), AllocError>
        ensures { OnOk result (Adds self.old self.new (at_bound p.now a.now offset.now fact.now)) }
    {
        match offset {
            PathOff::Nothing => self.put_two(alloc, p, a, fact),
            PathOff::Plus(q) => self.put_three(alloc, p, a, q, fact),
            PathOff::Minus(q) => self.put_three(alloc, p, a, q, fact),
        }
    }

    /// Puts the fact at each path that it names.
    fn put_fact(&mut self, alloc: Global, fact: &Fact) -> Result<(), AllocError>
        ensures { OnOk result (Adds self.old self.new (at_paths fact.now)) }
    {
        match fact {
            Fact::Rng(p, _, _) | Fact::LenRng(p, _, _) | Fact::Low(p, _) => {
                self.put(alloc, p, fact)
            }
            Fact::Same(p, q)
            | Fact::IsLen(p, q)
            | Fact::Less(p, q, _)
            | Fact::Search(p, q)
            | Fact::Neg(p, q) => self.put_two(alloc, p, q, fact),
            Fact::Sum(t, y, z) => self.put_three(alloc, t, y, z, fact),
            Fact::Upper(p, a, offset, _) => self.put_bound(alloc, p, a, offset, fact),
        }
    }

    /// The facts, each at each path that it names.
    pub(crate) fn of(alloc: Global, facts: &[Fact]) -> Result<Places, AllocError>
        ensures { IfOk result (λ places. (x : Path) → facts_at places x ≡ on_it x facts.now) }
    {
        let mut places = Places::new(alloc);
        for fact in facts {
            places.put_fact(alloc, fact)?;
        }
        Ok(places)
    }
}
