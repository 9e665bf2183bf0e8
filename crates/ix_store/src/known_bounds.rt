//! The bounds that closed facts give, each by all facts in all their orders.

ghost use Rattle.std.specs.Prelude.{◌≡◌, ◌<◌, Some, length, slice_get};
ghost use Rattle.ix_store.specs.StoredFacts.{facts_in};

use crate::known::Known;
use ix_bounds::{self, Groups};
use ix_core::{Fact, Path, PathOff};
use ix_facts::{Indexed, Know};

impl Known {
    /// The fact of this number, from 0, in the order of the table.
    fn fact_numbered(&self, k: u128) -> Fact
        requires number { k < length (facts_in self.now) }
        ensures fact { slice_get (facts_in self.now) k ≡ Some result }
    {
        self.table.as_slice()[k as usize]
    }
}

impl Groups for Known {
    ghost use Rattle.std.specs.Prelude.{refl, take, drop};
    ghost use Rattle.ix_facts.specs.Facts.{in_orders};
    ghost use Rattle.ix_store.specs.StoredFacts.{facts_in};
    ghost use Rattle.ix_store.specs.KnownParts.{ends_named, links_named, lengths_named};

    ghost all = { λ known. in_orders (facts_in known) };

    ghost group = { λ known p. in_orders (facts_in known) };

    fn on_path(&self, _p: &Path) -> &[Fact] {
        self.ordered()
    }

    ghost ends = { λ known p. take known.ends (in_orders (facts_in known)) };

    fn ends_on(&self, _p: &Path) -> &[Fact] {
        let (ends, _) = self.ordered().split_at(self.ends);
        ends
    }

    ghost links = { λ known p. drop known.from_links (in_orders (facts_in known)) };

    fn links_on(&self, _p: &Path) -> &[Fact] {
        let (_, links) = self.ordered().split_at(self.from_links);
        links
    }

    ghost lengths = { λ known p. drop known.from_links (take known.ends (in_orders (facts_in known))) };

    fn lengths_on(&self, _p: &Path) -> &[Fact] {
        let (ends, _) = self.ordered().split_at(self.ends);
        if self.from_links > ends.len() {
            return &[];
        }
        let (_, lengths) = ends.split_at(self.from_links);
        lengths
    }

    fn fact_less(&self, p: &Path, q: &Path) -> Option<i64> {
        self.table.fact_less(p, q)
    }

    ghost named = { λ known p. refl };

    ghost named_ends = { ends_named };

    ghost named_links = { links_named };

    ghost named_lengths = { lengths_named };

    ghost only = { λ known p f i. i };
}

impl Know for Known {
    ghost use Rattle.std.specs.Prelude.{[]};
    ghost use Rattle.ix_facts.specs.Facts.{in_orders};
    ghost use Rattle.ix_facts.specs.Exact.{named_ints, named_arrays};
    ghost use Rattle.ix_fact_paths.specs.ByPath.{put_all};
    ghost use Rattle.ix_fact_paths.specs.PutLaws.{put_once};
    ghost use Rattle.ix_store.specs.StoredFacts.{facts_in};

    ghost known = { facts_in };

    ghost int_paths = { λ known. put_all [] (named_ints (in_orders (facts_in known))) };

    ghost each_int = { λ known. put_once (named_ints (in_orders (facts_in known))) };

    ghost array_paths = { λ known. put_all [] (named_arrays (in_orders (facts_in known))) };

    ghost each_array = { λ known. put_once (named_arrays (in_orders (facts_in known))) };

    fn facts(&self) -> u128 {
        self.table.as_slice().len() as u128
    }

    fn fact(&self, k: u128) -> Fact {
        self.fact_numbered(k)
    }

    fn lo(&self, p: &Path) -> i64 {
        ix_bounds::lower_bound(self, p)
    }

    fn hi(&self, p: &Path) -> i64 {
        ix_bounds::upper_limit(self, p)
    }

    fn len_lo(&self, a: &Path) -> i64 {
        ix_bounds::length_low(self, a)
    }

    fn len_hi(&self, a: &Path) -> i64 {
        ix_bounds::length_high(self, a)
    }

    fn upper(&self, p: &Path, a: &Path, offset: &PathOff) -> Option<i64> {
        ix_bounds::upper_bound(self, p, a, offset)
    }

    fn less(&self, p: &Path, q: &Path) -> Option<i64> {
        Some(ix_bounds::less_bound(self, p, q))
    }

    fn difference(&self, p: &Path, q: &Path) -> Option<i64> {
        self.fact_less(p, q)
    }

    fn same(&self, a: &Path, b: &Path) -> bool {
        ix_bounds::stored_same(self, a, b)
    }

    fn is_len(&self, p: &Path, a: &Path) -> bool {
        ix_bounds::has_length(self, p, a)
    }

    fn search(&self, p: &Path, a: &Path) -> bool {
        ix_bounds::has_search(self, p, a)
    }

    fn negative(&self, p: &Path, a: &Path) -> bool {
        ix_bounds::has_negative(self, p, a)
    }

    fn ints(&self) -> u128 {
        self.ints.len() as u128
    }

    fn int(&self, k: u128) -> Path {
        self.ints[k as usize]
    }

    fn arrays(&self) -> u128 {
        self.arrays.len() as u128
    }

    fn array(&self, k: u128) -> Path {
        self.arrays[k as usize]
    }
}

impl Indexed for Known {
    ghost use Rattle.std.specs.Prelude.{refl};
    ghost use Rattle.ix_facts.specs.Facts.{in_orders};
    ghost use Rattle.ix_store.specs.StoredFacts.{facts_in};

    ghost on_path = { λ known p. in_orders (facts_in known) };

    fn on(&self, _p: &Path) -> &[Fact] {
        self.ordered()
    }

    fn int_list(&self) -> &[Path] {
        &self.ints
    }

    fn array_list(&self) -> &[Path] {
        &self.arrays
    }

    ghost each_named = { λ known p. refl };
}
