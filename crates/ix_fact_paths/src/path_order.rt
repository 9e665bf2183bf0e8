//! The orders of paths and of offsets.

ghost use Rattle.std.specs.Prelude.{◌≡◌, true};
ghost use Rattle.std.specs.Cmp.{IsTotalOrder};
ghost use Rattle.std.specs.Ordering.{is_eq};
ghost use Rattle.ix_core.specs.declared.fact.Path.{Path};
ghost use Rattle.ix_core.specs.declared.fact.PathOff.{PathOff};
ghost use Rattle.ix_facts.specs.Bounds.{is_path, is_offset};
ghost use Rattle.ix_facts.specs.PathOrder.{path_cmp, offset_cmp};

use ix_core::{Path, PathOff};
use std::cmp::Ordering;

/// Slots before fields, each by its numbers.
// Written out by variants it is a few steps at the caller, and no calls.
#[inline(always)]
pub fn compare_paths(p: &Path, q: &Path) -> Ordering
    ensures { record {
      value : result ≡ path_cmp p.now q.now;
      order : ⟦<Path as Ord>⟧.cmp p.now q.now ≡ path_cmp p.now q.now;
    } }
{
    match (*p, *q) {
        (Path::Slot(s), Path::Slot(t)) => s.cmp(&t),
        (Path::Slot(_), Path::FieldOf(_, _)) => Ordering::Less,
        (Path::FieldOf(_, _), Path::Slot(_)) => Ordering::Greater,
        (Path::FieldOf(s, f), Path::FieldOf(t, g)) => s.cmp(&t).then(f.cmp(&g)),
    }
}

/// The order of paths, as maps by paths use it.
#[tactic(auto, using(ix_facts::specs::PathOrder::path_same, ix_facts::specs::PathOrder::path_itself, ix_facts::proofs::PathOrders::path_equal))]
pub fn path_order_laws()
    ensures order { ⟦<Path as Ord>⟧.cmp ≡ path_cmp }
    ensures total { IsTotalOrder path_cmp }
    ensures equal { (p q : Path) → is_eq (path_cmp p q) ≡ is_path p q }
    ensures itself { (p : Path) → is_path p p ≡ true }
    ensures same { (p q : Path) → is_path p q ≡ true → p ≡ q }
{}

/// No offset before `+`, `+` before `-`, each by its path.
pub fn compare_offsets(x: &PathOff, y: &PathOff) -> Ordering
    ensures { record {
      value : result ≡ offset_cmp x.now y.now;
      order : ⟦<PathOff as Ord>⟧.cmp x.now y.now ≡ offset_cmp x.now y.now;
    } }
{
    x.cmp(y)
}

/// The order of offsets, as maps by offsets use it.
#[tactic(auto, using(ix_facts::specs::PathOrder::offset_total, ix_facts::proofs::PathOrders::offset_equal))]
pub fn offset_order_laws()
    ensures order { ⟦<PathOff as Ord>⟧.cmp ≡ offset_cmp }
    ensures total { IsTotalOrder offset_cmp }
    ensures equal { (x y : PathOff) → is_eq (offset_cmp x y) ≡ is_offset x y }
{}
