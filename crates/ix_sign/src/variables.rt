//! Which variable an assignment goes into (JLS 6.3, 15.26).

ghost use Rattle.std.specs.Prelude.{◌≡◌, ◌+◌, ◌<◌, ◌^◌, ◌&&◌, ◌==◌, nat_lt, not, option_map, IfSome};
ghost use Rattle.ix_core.specs.Tables.{param_slot as slot_of};
ghost use Rattle.ix_signatures.specs.Names as names;
ghost use Rattle.ix_signatures.specs.Naming.{AreSmallClaims, HasSmallNames};
ghost use Rattle.ix_sign.specs.Shown.{shown};

use crate::variable::Variable;
use ix_core::{Local, Method, Name};
use ix_signatures::param_slot;
use ix_text::Span;

/// Whether the parameter has the slot.
fn is_param(method: &Method, number: u32, slot: u32) -> bool
    requires { number + 1 < 2 ^ 32 }
    ensures { result ≡ (slot == slot_of method.now number) }
{
    slot == param_slot(method, number)
}

/// The parameter that has the slot.
fn param_at(method: &Method, slot: u32) -> Option<Variable<'_>>
    requires small { HasSmallNames method.now }
    ensures found { option_map shown result ≡ names.param_in method.now slot 0 method.now.params }
    ensures small { IfSome result (λ variable. AreSmallClaims variable.claims.now) }
{
    let params = method.params.as_slice();
    for number in 0..params.len() {
        if is_param(method, number as u32, slot) {
            return Some(Variable {
                name: Name::Param(number as u32),
                claims: params[number].claims.as_slice(),
            });
        }
    }
    None
}

/// Whether the local has the slot at the place.
fn is_here(local: &(Local, Span), slot: u32, place: u32) -> bool
    ensures { result ≡ ((local.now.0.slot == slot) && (not (nat_lt place local.now.1.from) && nat_lt place local.now.1.to)) }
{
    local.0.slot == slot && !(place < local.1.from) && place < local.1.to
}

/// The local that has the slot at the place.
fn local_at(method: &Method, slot: u32, place: u32) -> Option<Variable<'_>>
    requires small { HasSmallNames method.now }
    ensures small { IfSome result (λ variable. AreSmallClaims variable.claims.now) }
    ensures found { option_map shown result ≡ names.local_in slot place 0 method.now.locals }
{
    let locals = method.locals.as_slice();
    for number in 0..locals.len() {
        if is_here(&locals[number], slot, place) {
            return Some(Variable {
                name: Name::Local(number as u32),
                claims: locals[number].0.claims.as_slice(),
            });
        }
    }
    None
}

/// The parameter or local that a copy to a slot at this place goes into; none where the slot is a temporary.
pub fn variable_at(method: &Method, slot: u32, place: u32) -> Option<Variable<'_>>
    requires small { HasSmallNames method.now }
    ensures { record {
      found : option_map shown result ≡ names.variable_at method.now slot place;
      small : IfSome result (λ variable. AreSmallClaims variable.claims.now);
    } }
{
    match param_at(method, slot) {
        Some(variable) => Some(variable),
        None => local_at(method, slot, place),
    }
}
