//! What is known of the parameters and the result of methods that override.

ghost use Rattle.std.specs.Prelude.{◌≡◌, ◌++◌, IfOk};
ghost use Rattle.ix_core.specs.declared.fact.Path.TheVariants.{Slot};
ghost use Rattle.ix_core.specs.Tables.{param_slots};
ghost use Rattle.ix_rules_hold.specs.MachineSteps.{own_path};
ghost use Rattle.ix_signatures.specs.Naming.{HasSmallNames};
ghost use Rattle.ix_signatures.specs.Signs as signs;

use crate::facts::{push_claims, push_params, push_received, push_received_params};
use crate::naming::Naming;
use crate::paths::param_slot;
use ix_core::{Fact, Method, Path};
use std::alloc::{AllocError, Global};

/// What the claims of a method's parameters say, and nothing else. The only error is want of memory.
pub fn asked_facts(alloc: Global, upper: &Method) -> Result<Vec<Fact>, AllocError>
    requires small { HasSmallNames upper.now }
    ensures { IfOk result (λ facts. facts.items ≡ signs.params_facts upper.now 0 upper.now.params) }
{
    let mut facts = Vec::new(alloc);
    push_params(&mut facts, upper).and(Ok(facts))
}

/// The slot of the result, above those of the parameters.
pub fn result_slot(method: &Method) -> u32
    requires small { HasSmallNames method.now }
    ensures { result ≡ param_slots method.now }
{
    param_slot(method, method.params.len() as u32)
}

/// What is known where the method is called. The only error is want of memory.
pub fn called_facts(alloc: Global, upper: &Method) -> Result<Vec<Fact>, AllocError>
    requires small { HasSmallNames upper.now }
    ensures { IfOk result (λ facts. facts.items ≡ signs.received_params upper.now 0 upper.now.param_types ++ signs.params_facts upper.now 0 upper.now.params) }
{
    let mut facts = Vec::new(alloc);
    push_received_params(&mut facts, upper)
        .and(push_params(&mut facts, upper))
        .and(Ok(facts))
}

/// What a method's own claims say of its result. The only error is want of memory.
pub fn own_result(alloc: Global, method: &Method) -> Result<Vec<Fact>, AllocError>
    requires small { HasSmallNames method.now }
    ensures { IfOk result (λ facts. facts.items ≡ signs.received method.now.result (Slot (param_slots method.now)) ++ signs.claims_facts (own_path method.now) (Slot (param_slots method.now)) method.now.result_claims) }
{
    let at = Path::Slot(result_slot(method));
    let mut facts = Vec::new(alloc);
    push_received(&mut facts, &method.result, &at)
        .and(push_claims(
            &mut facts,
            &Naming::Inside(method),
            &at,
            method.result_claims.as_slice(),
        ))
        .and(Ok(facts))
}
