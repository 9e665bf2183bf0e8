//! All that is known as a list.

ghost use Rattle.std.specs.Prelude.{◌≡◌, All, IfOk};
ghost use Rattle.ix_facts.specs.Small.{HasSmallNumbers};

use ix_core::Fact;
use ix_facts::Know;
use std::alloc::{AllocError, Global};

pub(crate) fn all_known<K: Know>(alloc: Global, know: &K) -> Result<Vec<Fact>, AllocError>
    ensures facts { IfOk result (λ facts. facts.items ≡ K.known know.now) }
    ensures small { IfOk result (λ facts. All HasSmallNumbers facts.items) }
{
    let mut facts = Vec::new(alloc);
    for k in 0..know.facts() {
        facts.push(know.fact(k))?;
    }
    Ok(facts)
}
