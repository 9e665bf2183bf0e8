//! The table as a lattice and as a system.

use crate::after::{new_facts, new_facts_of_copy};
use crate::facts_of::FactsOf;
use crate::one_kind::OneKind;
use ix_core::{Fact, Op, Path, Profile, Type_};
use ix_facts::{Know, Landmarks, System};
use ix_lattice::Lattice;
use std::alloc::{AllocError, Global};
use std::marker::PhantomData;

impl<K: OneKind> Lattice for FactsOf<K> {
    ghost use Rattle.ix_systems.specs.KindTables.{FactsBelow, facts_rank};
    ghost use Rattle.ix_systems.specs.KindLaws.{facts_laws};

    ghost Below = { FactsBelow };

    ghost rank = { facts_rank };

    ghost laws = { facts_laws };

    fn leq(&self, other: &Self) -> bool {
        self.table.says_all(&other.table)
    }

    fn join(&self, alloc: Global, other: &Self) -> Result<Self, AllocError> {
        let table = self.table.common(alloc, &other.table)?;
        Ok(FactsOf {
            table,
            of: PhantomData,
        })
    }
}

impl<K: OneKind> System for FactsOf<K> {
    ghost use Rattle.ix_systems.specs.KindTables.{known_facts};
    ghost use Rattle.ix_systems.specs.KindLaws.{all_own, all_may_stand, order_itself, common_part};

    ghost known = { known_facts };

    ghost kind = { K.KIND };

    fn after<N: Know>(
        &self,
        alloc: Global,
        op: &Op,
        know: &N,
        profile: Profile,
    ) -> Result<Self, AllocError> {
        let new = new_facts(alloc, know, profile, &op.kind)?;
        let table = self.renewed(alloc, &op.kind, &new)?;
        Ok(table)
    }

    fn copy<N: Know>(
        &self,
        alloc: Global,
        target: &Path,
        source: &Path,
        ty: &Type_,
        know: &N,
        _profile: Profile,
    ) -> Result<Self, AllocError> {
        let new = new_facts_of_copy(alloc, know, ty, target, source)?;
        let table = self.renewed_path(alloc, target, &new)?;
        Ok(table)
    }

    fn round(&self, alloc: Global, marks: &Landmarks) -> Result<Self, AllocError> {
        let table = self.table.rounded(alloc, marks)?;
        Ok(FactsOf {
            table,
            of: PhantomData,
        })
    }

    fn forget(&self, alloc: Global, path: &Path) -> Result<Self, AllocError> {
        let table = self.table.without_path(alloc, path)?;
        Ok(FactsOf {
            table,
            of: PhantomData,
        })
    }

    fn add(&self, alloc: Global, fact: &Fact) -> Result<Self, AllocError> {
        let table = self.table.with_fact(alloc, fact)?;
        Ok(FactsOf {
            table,
            of: PhantomData,
        })
    }

    fn facts(&self) -> u128 {
        self.table.as_slice().len() as u128
    }

    fn fact(&self, k: u128) -> Fact {
        self.table.as_slice()[k as usize]
    }

    ghost owned = { all_own };

    ghost entries = { all_may_stand };

    ghost order = { order_itself };

    ghost joined = { common_part };
}
