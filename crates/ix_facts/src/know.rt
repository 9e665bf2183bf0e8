//! What is known at a point of a method: facts, and the bounds that they give.

ghost use Rattle.std.specs.Prelude.{◌≡◌, ◌<◌, List, Bool, length, slice_get, Some, IfSome};
ghost use Rattle.ix_core.specs.declared.fact.Path.{Path};
ghost use Rattle.ix_core.specs.declared.fact.Fact.{Fact};
ghost use Rattle.ix_facts.specs.Facts.{in_orders};
ghost use Rattle.ix_facts.specs.Bounds.{stored_same, length_low, length_high, lower_bound, upper_limit, upper_bound, less_bound, fact_less};
ghost use Rattle.ix_facts.specs.Assume.{has, is_length, is_search, is_negative};
ghost use Rattle.ix_facts.specs.Exact.{named_ints, named_arrays};
ghost use Rattle.ix_facts.specs.Named.{IsEachOnce};
ghost use Rattle.ix_facts.specs.Small.{IsEnd, IsBound, HasSmallNumbers};

use ix_core::{Fact, Path, PathOff};

/// Facts by number, and the bounds that they give. No call takes memory. The order of the numbers is open, and stays the same as long as the
/// value isn't changed.
pub trait Know {
    ghost known: { Self → List Fact };

    /// How many facts there are.
    fn facts(&self) -> u128
        ensures count { result ≡ length (known self.now) };

    /// The fact of this number, from 0. The ends of a range lie between -2^36 and 2^36, and what an int is at least is -1, 0 or 1.
    fn fact(&self, k: u128) -> Fact
        requires number { k < length (known self.now) }
        ensures fact { slice_get (known self.now) k ≡ Some result }
        ensures small { HasSmallNumbers result };

    /// The greatest number that the int is known to be at least.
    fn lo(&self, p: &Path) -> i64
        ensures bound { result ≡ lower_bound (in_orders (known self.now)) p.now }
        ensures small { IsBound result };

    /// The least number that the int is known to be at most.
    fn hi(&self, p: &Path) -> i64
        ensures bound { result ≡ upper_limit (in_orders (known self.now)) p.now }
        ensures small { IsBound result };

    /// The greatest number that the array's length is known to be at least.
    fn len_lo(&self, a: &Path) -> i64
        ensures bound { result ≡ length_low (in_orders (known self.now)) a.now }
        ensures small { IsEnd result };

    /// The least number that the array's length is known to be at most.
    fn len_hi(&self, a: &Path) -> i64
        ensures bound { result ≡ length_high (in_orders (known self.now)) a.now }
        ensures small { IsEnd result };

    /// The greatest number c for which `p + offset + c < a.length` is known, if any.
    fn upper(&self, p: &Path, a: &Path, offset: &PathOff) -> Option<i64>
        ensures bound { result ≡ upper_bound (in_orders (known self.now)) p.now a.now offset.now }
        ensures small { IfSome result IsBound };

    /// The least number c for which `p < q + c` is known.
    fn less(&self, p: &Path, q: &Path) -> Option<i64>
        ensures bound { result ≡ Some (less_bound (in_orders (known self.now)) p.now q.now) }
        ensures small { IfSome result IsBound };

    /// The least number c for which a fact says `p < q + c` as it stands, if any.
    fn difference(&self, p: &Path, q: &Path) -> Option<i64>
        ensures bound { result ≡ fact_less (in_orders (known self.now)) p.now q.now }
        ensures small { IfSome result IsEnd };

    /// Whether a fact says that two arrays have the same length.
    fn same(&self, a: &Path, b: &Path) -> bool
        ensures fact { result ≡ stored_same (in_orders (known self.now)) a.now b.now };

    /// Whether a fact says that the int is the array's length.
    fn is_len(&self, p: &Path, a: &Path) -> bool
        ensures fact { result ≡ has (is_length p.now a.now) (known self.now) };

    /// Whether a fact says that the int is an answer of a search in the array.
    fn search(&self, p: &Path, a: &Path) -> bool
        ensures fact { result ≡ has (is_search p.now a.now) (known self.now) };

    /// Whether a fact says that it is a negative answer.
    fn negative(&self, p: &Path, a: &Path) -> bool
        ensures fact { result ≡ has (is_negative p.now a.now) (known self.now) };

    /// The ints that the facts name, each once.
    ghost int_paths: { Self → List Path };

    ghost each_int: { (know : Self) → IsEachOnce (named_ints (in_orders (known know))) (int_paths know) };

    /// How many ints the facts name.
    fn ints(&self) -> u128
        ensures count { result ≡ length (int_paths self.now) };

    /// The int of this number, from 0.
    fn int(&self, k: u128) -> Path
        requires number { k < length (int_paths self.now) }
        ensures path { slice_get (int_paths self.now) k ≡ Some result };

    /// The arrays that the facts name, each once.
    ghost array_paths: { Self → List Path };

    ghost each_array: { (know : Self) → IsEachOnce (named_arrays (in_orders (known know))) (array_paths know) };

    /// How many arrays the facts name.
    fn arrays(&self) -> u128
        ensures count { result ≡ length (array_paths self.now) };

    /// The array of this number, from 0.
    fn array(&self, k: u128) -> Path
        requires number { k < length (array_paths self.now) }
        ensures path { slice_get (array_paths self.now) k ≡ Some result };
}
