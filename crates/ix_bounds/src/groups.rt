//! Facts by the paths that they name.

ghost use Rattle.std.specs.Prelude.{◌≡◌, All, IfSome, List, filter};
ghost use Rattle.ix_core.specs.declared.fact.Path.{Path};
ghost use Rattle.ix_core.specs.declared.fact.Fact.{Fact};
ghost use Rattle.ix_facts.specs.Bounds.{is_path};
ghost use Rattle.ix_facts.specs.Facts.{IsIn};
ghost use Rattle.ix_facts.specs.Forget.{names};
ghost use Rattle.ix_facts.specs.Small.{IsEnd, HasSmallNumbers};
ghost use Rattle.ix_bounds.specs.Ends.{ends_in};
ghost use Rattle.ix_facts.specs.Bounds as bounds;
ghost use Rattle.ix_bounds.specs.Links.{links_in};
ghost use Rattle.ix_bounds.specs.Lengths.{lengths_in};

use ix_core::{Fact, Path};

/// Facts in all their orders, with those on each path at hand. No call takes memory.
pub trait Groups {
    /// All facts, in all their orders.
    ghost all: { Self → List Fact };

    /// Of them the facts on a path: all that name it, and maybe others.
    ghost group: { Self → Path → List Fact };

    /// The facts on the path. The ends of ranges lie between -2^36 and 2^36, and what an int is at least is -1, 0 or 1.
    fn on_path(&self, p: &Path) -> &[Fact]
        ensures facts { result.now ≡ group self.now p.now }
        ensures small { All HasSmallNumbers result.now };

    /// The ranges on a path, the class of the int there, and which lengths it is: all of them, and maybe other facts.
    ghost ends: { Self → Path → List Fact };

    /// The ranges on the path, the class of the int there, and which lengths it is: few, where many facts name the path.
    fn ends_on(&self, p: &Path) -> &[Fact]
        ensures facts { result.now ≡ ends self.now p.now }
        ensures small { All HasSmallNumbers result.now };

    /// The differences and lengths on a path: all of them, and maybe other facts.
    ghost links: { Self → Path → List Fact };

    /// The differences on the path, and which lengths are the int there.
    fn links_on(&self, p: &Path) -> &[Fact]
        ensures facts { result.now ≡ links self.now p.now };

    /// Which lengths the int on a path is: all of them, and maybe other facts.
    ghost lengths: { Self → Path → List Fact };

    /// Which lengths are the int on the path: few, where many facts name it.
    fn lengths_on(&self, p: &Path) -> &[Fact]
        ensures facts { result.now ≡ lengths self.now p.now };

    /// The least c of the facts `p < q + c`. A table has it at its place.
    fn fact_less(&self, p: &Path, q: &Path) -> Option<i64>
        ensures bound { result ≡ bounds.fact_less (all self.now) p.now q.now }
        ensures small { IfSome result IsEnd };

    /// All facts that name the path are among those on it, in order.
    ghost named: { (facts : Self) (p : Path) → filter (names (is_path p)) (group facts p) ≡ filter (names (is_path p)) (all facts) };

    /// All ranges, classes and lengths that name the path are among those on it, in order.
    ghost named_ends: { (facts : Self) (p : Path) → filter (names (is_path p)) (ends_in (ends facts p)) ≡ filter (names (is_path p)) (ends_in (all facts)) };

    /// All differences and lengths that name the path are among those on it, in order.
    ghost named_links: { (facts : Self) (p : Path) → filter (names (is_path p)) (links_in (links facts p)) ≡ filter (names (is_path p)) (links_in (all facts)) };

    /// All lengths that name the path are among those on it, in order.
    ghost named_lengths: { (facts : Self) (p : Path) → filter (names (is_path p)) (lengths_in (lengths facts p)) ≡ filter (names (is_path p)) (lengths_in (all facts)) };

    /// There are no others than facts on it.
    ghost only: { (facts : Self) (p : Path) (f : Fact) → IsIn f (group facts p) → IsIn f (all facts) };
}
