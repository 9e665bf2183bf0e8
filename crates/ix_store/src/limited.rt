//! Closed facts as they stand, with what each near int is at least and at most at hand.

ghost use Rattle.std.specs.Prelude.{◌≡◌, IfOk};
ghost use Rattle.ix_facts.specs.Facts.{in_orders};
ghost use Rattle.ix_fact_list.specs.NearNumbers.{HasLimits};
ghost use Rattle.ix_store.specs.declared.known.Known.{Known};
ghost use Rattle.ix_store.specs.StoredFacts.{facts_in};

use crate::known::Known;
use ix_bounds::Groups;
use ix_core::{Fact, Path, PathOff};
use ix_fact_list::Limits;
use ix_facts::{Indexed, Know};
use std::alloc::{AllocError, Global};
use std::marker::Model;

/// Facts that a step reads where it asks for limits: no fact is copied.
#[derive(Drop)]
pub(crate) struct Limited<'a> {
    known: &'a Known,
    limits: Limits,
}

impl<'a> Model for Limited<'a> {
    ghost Value = { Known };

    ghost view = { λ limited. limited.known.now };

    ghost invariant = { λ limited. HasLimits (in_orders (facts_in limited.known.now)) limited.limits };
}

impl<'a> Limited<'a> {
    /// The facts, with limits by all of them. The only error is want of memory.
    pub(crate) fn of(alloc: Global, known: &'a Known) -> Result<Limited<'a>, AllocError>
        ensures facts { IfOk result (λ limited. limited ≡ known.now) }
    {
        let all = known.ordered();
        let (ends, _) = all.split_at(known.ends);
        let limits = Limits::by_part(alloc, known, all, ends, &known.ints, &known.arrays)?;
        Ok(Limited { known, limits })
    }
}

impl<'a> Groups for Limited<'a> {
    ghost use Rattle.std.specs.Prelude.{refl, take, drop};
    ghost use Rattle.ix_facts.specs.Facts.{in_orders};
    ghost use Rattle.ix_store.specs.StoredFacts.{facts_in};
    ghost use Rattle.ix_store.specs.KnownParts.{ends_named, links_named, lengths_named};

    ghost all = { λ known. in_orders (facts_in known) };

    ghost group = { λ known p. in_orders (facts_in known) };

    fn on_path(&self, p: &Path) -> &[Fact] {
        self.known.on_path(p)
    }

    ghost ends = { λ known p. take known.ends (in_orders (facts_in known)) };

    fn ends_on(&self, p: &Path) -> &[Fact] {
        self.known.ends_on(p)
    }

    ghost links = { λ known p. drop known.from_links (in_orders (facts_in known)) };

    fn links_on(&self, p: &Path) -> &[Fact] {
        self.known.links_on(p)
    }

    ghost lengths = { λ known p. drop known.from_links (take known.ends (in_orders (facts_in known))) };

    fn lengths_on(&self, p: &Path) -> &[Fact] {
        self.known.lengths_on(p)
    }

    fn fact_less(&self, p: &Path, q: &Path) -> Option<i64> {
        self.known.fact_less(p, q)
    }

    ghost named = { λ known p. refl };

    ghost named_ends = { ends_named };

    ghost named_links = { links_named };

    ghost named_lengths = { lengths_named };

    ghost only = { λ known p f i. i };
}

impl<'a> Know for Limited<'a> {
    ghost use Rattle.std.specs.Prelude.{[]};
    ghost use Rattle.ix_facts.specs.Facts.{in_orders};
    ghost use Rattle.ix_facts.specs.Exact.{named_ints, named_arrays};
    ghost use Rattle.ix_fact_paths.specs.ByPath.{put_all};
    ghost use Rattle.ix_fact_paths.specs.PutLaws.{put_once};
    ghost use Rattle.ix_store.specs.StoredFacts.{facts_in};

    ghost known = { facts_in };

    ghost int_paths = { λ known. put_all [] (named_ints (in_orders (facts_in known))) };

    ghost each_int = { λ known. put_once (named_ints (in_orders (facts_in known))) };

    ghost array_paths = { λ known. put_all [] (named_arrays (in_orders (facts_in known))) };

    ghost each_array = { λ known. put_once (named_arrays (in_orders (facts_in known))) };

    fn facts(&self) -> u128 {
        self.known.facts()
    }

    fn fact(&self, k: u128) -> Fact {
        self.known.fact(k)
    }

    fn lo(&self, p: &Path) -> i64 {
        match self.limits.low(p) {
            Some(low) => low,
            None => self.known.lo(p),
        }
    }

    fn hi(&self, p: &Path) -> i64 {
        match self.limits.high(p) {
            Some(high) => high,
            None => self.known.hi(p),
        }
    }

    fn len_lo(&self, a: &Path) -> i64 {
        self.known.len_lo(a)
    }

    fn len_hi(&self, a: &Path) -> i64 {
        self.known.len_hi(a)
    }

    fn upper(&self, p: &Path, a: &Path, offset: &PathOff) -> Option<i64> {
        self.known.upper(p, a, offset)
    }

    fn less(&self, p: &Path, q: &Path) -> Option<i64> {
        self.known.less(p, q)
    }

    fn difference(&self, p: &Path, q: &Path) -> Option<i64> {
        self.known.difference(p, q)
    }

    fn same(&self, a: &Path, b: &Path) -> bool {
        self.known.same(a, b)
    }

    fn is_len(&self, p: &Path, a: &Path) -> bool {
        self.known.is_len(p, a)
    }

    fn search(&self, p: &Path, a: &Path) -> bool {
        self.known.search(p, a)
    }

    fn negative(&self, p: &Path, a: &Path) -> bool {
        self.known.negative(p, a)
    }

    fn ints(&self) -> u128 {
        self.known.ints()
    }

    fn int(&self, k: u128) -> Path {
        self.known.int(k)
    }

    fn arrays(&self) -> u128 {
        self.known.arrays()
    }

    fn array(&self, k: u128) -> Path {
        self.known.array(k)
    }
}

impl<'a> Indexed for Limited<'a> {
    ghost use Rattle.std.specs.Prelude.{refl};
    ghost use Rattle.ix_facts.specs.Facts.{in_orders};
    ghost use Rattle.ix_store.specs.StoredFacts.{facts_in};

    ghost on_path = { λ known p. in_orders (facts_in known) };

    fn on(&self, p: &Path) -> &[Fact] {
        self.known.on(p)
    }

    fn int_list(&self) -> &[Path] {
        self.known.int_list()
    }

    fn array_list(&self) -> &[Path] {
        self.known.array_list()
    }

    ghost each_named = { λ known p. refl };
}
