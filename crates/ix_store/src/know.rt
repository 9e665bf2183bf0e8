//! The bounds that a store gives: those of its facts, and at a place where no state is those of no facts.

use crate::nothing::NoFacts;
use crate::store::Store;
use ix_bounds as bounds;
use ix_core::{Fact, Path, PathOff};
use ix_facts::Know;

impl Know for Store {
    ghost use Rattle.std.specs.Prelude.{[]};
    ghost use Rattle.ix_facts.specs.Facts.{in_orders};
    ghost use Rattle.ix_facts.specs.Exact.{named_ints, named_arrays};
    ghost use Rattle.ix_fact_paths.specs.ByPath.{put_all};
    ghost use Rattle.ix_fact_paths.specs.PutLaws.{put_once};
    ghost use Rattle.ix_store.specs.SeenFacts.{facts_seen};

    ghost known = { facts_seen };

    ghost int_paths = { λ store. put_all [] (named_ints (in_orders (facts_seen store))) };

    ghost each_int = { λ store. put_once (named_ints (in_orders (facts_seen store))) };

    ghost array_paths = { λ store. put_all [] (named_arrays (in_orders (facts_seen store))) };

    ghost each_array = { λ store. put_once (named_arrays (in_orders (facts_seen store))) };

    fn facts(&self) -> u128 {
        match &self.known {
            None => 0,
            Some(known) => known.get().facts(),
        }
    }

    fn fact(&self, k: u128) -> Fact {
        match &self.known {
            None => unreachable!(),
            Some(known) => known.get().fact(k),
        }
    }

    fn lo(&self, p: &Path) -> i64 {
        match &self.known {
            None => bounds::lower_bound(&NoFacts, p),
            Some(known) => known.get().lo(p),
        }
    }

    fn hi(&self, p: &Path) -> i64 {
        match &self.known {
            None => bounds::upper_limit(&NoFacts, p),
            Some(known) => known.get().hi(p),
        }
    }

    fn len_lo(&self, a: &Path) -> i64 {
        match &self.known {
            None => bounds::length_low(&NoFacts, a),
            Some(known) => known.get().len_lo(a),
        }
    }

    fn len_hi(&self, a: &Path) -> i64 {
        match &self.known {
            None => bounds::length_high(&NoFacts, a),
            Some(known) => known.get().len_hi(a),
        }
    }

    fn upper(&self, p: &Path, a: &Path, offset: &PathOff) -> Option<i64> {
        match &self.known {
            None => bounds::upper_bound(&NoFacts, p, a, offset),
            Some(known) => known.get().upper(p, a, offset),
        }
    }

    fn less(&self, p: &Path, q: &Path) -> Option<i64> {
        match &self.known {
            None => Some(bounds::less_bound(&NoFacts, p, q)),
            Some(known) => known.get().less(p, q),
        }
    }

    fn difference(&self, p: &Path, q: &Path) -> Option<i64> {
        match &self.known {
            None => None,
            Some(known) => known.get().difference(p, q),
        }
    }

    fn same(&self, a: &Path, b: &Path) -> bool {
        match &self.known {
            None => false,
            Some(known) => known.get().same(a, b),
        }
    }

    fn is_len(&self, p: &Path, a: &Path) -> bool {
        match &self.known {
            None => false,
            Some(known) => known.get().is_len(p, a),
        }
    }

    fn search(&self, p: &Path, a: &Path) -> bool {
        match &self.known {
            None => false,
            Some(known) => known.get().search(p, a),
        }
    }

    fn negative(&self, p: &Path, a: &Path) -> bool {
        match &self.known {
            None => false,
            Some(known) => known.get().negative(p, a),
        }
    }

    fn ints(&self) -> u128 {
        match &self.known {
            None => 0,
            Some(known) => known.get().ints(),
        }
    }

    fn int(&self, k: u128) -> Path {
        match &self.known {
            None => unreachable!(),
            Some(known) => known.get().int(k),
        }
    }

    fn arrays(&self) -> u128 {
        match &self.known {
            None => 0,
            Some(known) => known.get().arrays(),
        }
    }

    fn array(&self, k: u128) -> Path {
        match &self.known {
            None => unreachable!(),
            Some(known) => known.get().array(k),
        }
    }
}
