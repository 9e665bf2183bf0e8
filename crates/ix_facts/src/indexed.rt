//! Facts by the paths that they name.

ghost use Rattle.std.specs.Prelude.{◌≡◌, List, filter};
ghost use Rattle.ix_core.specs.declared.fact.Path.{Path};
ghost use Rattle.ix_core.specs.declared.fact.Fact.{Fact};
ghost use Rattle.ix_facts.specs.Bounds.{is_path};
ghost use Rattle.ix_facts.specs.Facts.{in_orders};
ghost use Rattle.ix_facts.specs.Forget.{names};

use crate::{Fact, Know, Path};

/// What is known, with the facts on each path at hand. No call takes memory.
pub trait Indexed: Know {
    /// The facts on a path: all that name it, in all their orders; there may be others among them.
    ghost on_path: { Self → Path → List Fact };

    /// The facts on the path.
    fn on(&self, p: &Path) -> &[Fact]
        ensures facts { result.now ≡ on_path self.now p.now };

    /// The ints that the facts name, each once.
    fn int_list(&self) -> &[Path]
        ensures ints { result.now ≡ Self.int_paths self.now };

    /// The arrays that the facts name, each once.
    fn array_list(&self) -> &[Path]
        ensures arrays { result.now ≡ Self.array_paths self.now };

    /// All facts that name the path are among them, in order.
    ghost each_named: { (know : Self) (p : Path) → filter (names (is_path p)) (on_path know p) ≡ filter (names (is_path p)) (in_orders (Self.known know)) };
}
