//! The first claim that inputs don't meet.
ghost use Rattle.std.specs.Prelude.{◌≡◌, ◌<◌, [], ℕ, IfSome, length, map, option_map, pos, neg_ℤ, ◌+ℤ◌, ◌≤ℤ◌};
ghost use Rattle.std.specs.List.{list_all};
ghost use Rattle.ix_core.specs.Claims as core;
ghost use Rattle.ix_core.specs.Heap.{int_reading, no_reading};
ghost use Rattle.ix_core.specs.Inputs as model;
ghost use Rattle.ix_core.specs.Safe.{input_reading, input_names, element_claims, elements_of};
ghost use Rattle.ix_machine_inputs.specs.Shown.{input_of, reading_of, unmet_of};

use crate::input::Input;
use ix_core::{Claim, Method, Name, Off, Type_};

/// A claim that an input doesn't meet, with the number of its parameter from 0.
#[derive(Clone, Copy)]
pub struct Unmet {
    pub param: usize,
    pub claim: Claim,
}

/// What claims read of an input: its int and the length of its array, each 0 where it has none.
#[derive(Clone, Copy)]
struct Reading {
    int: i32,
    size: usize,
}

/// What claims read of an input.
fn read(input: &Input) -> Reading
    ensures { reading_of result ≡ input_reading (input_of input.now) }
{
    match input {
        Input::Int(n) => Reading { int: *n, size: 0 },
        Input::Bool(_) => Reading { int: 0, size: 0 },
        Input::Ints(ns) => Reading {
            int: 0,
            size: ns.len(),
        },
    }
}

/// What a name of a claim stands for: a parameter's input.
fn named(inputs: &[Input], name: Name) -> Reading
    ensures { reading_of result ≡ input_names (map input_of inputs.now) name }
{
    match name {
        Name::Param(number) => match inputs.get(number as usize) {
            Some(input) => read(input),
            None => Reading { int: 0, size: 0 },
        },
        _ => Reading { int: 0, size: 0 },
    }
}

/// What an offset adds.
fn offset(inputs: &[Input], off: Off) -> i64
    ensures { record {
      value : result ≡ core.offset_of (input_names (map input_of inputs.now)) off;
      least : neg_ℤ (pos 2147483648) ≤ℤ result;
      greatest : result ≤ℤ pos 2147483648;
    } }
{
    match off {
        Off::Nothing => 0,
        Off::Plus(name) => named(inputs, name).int as i64,
        Off::Minus(name) => -(named(inputs, name).int as i64),
    }
}

/// What `v + offset + constant` is.
fn shifted(v: i32, inputs: &[Input], off: Off, constant: i32) -> i64
    ensures { result ≡ (v +ℤ core.offset_of (input_names (map input_of inputs.now)) off) +ℤ constant }
{
    v as i64 + offset(inputs, off) + constant as i64
}

/// What `name + constant` is.
fn limit(inputs: &[Input], name: Name, constant: i32) -> i64
    ensures { result ≡ (input_names (map input_of inputs.now) name).int +ℤ constant }
{
    named(inputs, name).int as i64 + constant as i64
}

/// Whether `-size - 1 <= v <= high`.
fn is_from(size: usize, v: i32, high: i128) -> bool
    ensures { result ≡ model.is_from (pos size) v high }
{
    -(size as i128) - 1 <= v as i128 && v as i128 <= high
}

/// Whether the claim is true of the value, where names stand for these inputs.
fn is_true(claim: Claim, v: Reading, inputs: &[Input]) -> bool
    ensures { result ≡ model.is_true_of claim (reading_of v) (input_names (map input_of inputs.now)) }
{
    match claim {
        Claim::Range(low, high) => low <= v.int && v.int <= high,
        Claim::Low(low) => low <= v.int,
        Claim::Length(least) => least as i128 <= v.size as i128,
        Claim::Same(other) => v.size == named(inputs, other).size,
        Claim::Less(name, constant) => (v.int as i64) < limit(inputs, name, constant),
        Claim::Upper(array, off, constant) => {
            let sum = shifted(v.int, inputs, off, constant);
            (sum as i128) < named(inputs, array).size as i128
        }
        Claim::Search(array) => {
            let size = named(inputs, array).size;
            is_from(size, v.int, size as i128 - 1)
        }
        Claim::Negative(array) => is_from(named(inputs, array).size, v.int, -1),
    }
}

/// The first of a parameter's own claims that isn't true.
fn first_own(param: usize, claims: &[Claim], v: Reading, inputs: &[Input]) -> Option<Unmet>
    ensures { option_map unmet_of result ≡ model.first_own param claims.now (reading_of v) (input_names (map input_of inputs.now)) }
{
    for claim in claims {
        if !is_true(*claim, v, inputs) {
            return Some(Unmet {
                param,
                claim: *claim,
            });
        }
    }
    None
}

/// Whether the claim is true of every one of these ints. It names nothing.
fn is_of_all(claim: Claim, ns: &[i32]) -> bool
    ensures { result ≡ list_all (λ n. model.is_true_of claim (int_reading n) (λ name. no_reading)) ns.now }
{
    for n in ns {
        if !is_true(claim, Reading { int: *n, size: 0 }, &[]) {
            return false;
        }
    }
    true
}

/// The first of the claims on elements that isn't true of every element.
fn first_of_elements(param: usize, claims: &[Claim], ns: &[i32]) -> Option<Unmet>
    ensures { option_map unmet_of result ≡ model.first_of_elements param claims.now ns.now }
{
    for claim in claims {
        if !is_of_all(*claim, ns) {
            return Some(Unmet {
                param,
                claim: *claim,
            });
        }
    }
    None
}

/// The claims on an array's elements.
fn claims_in(ty: &Type_) -> &[Claim]
    ensures { result.now ≡ element_claims ty.now }
{
    match ty {
        Type_::Array { element, .. } => element.as_slice(),
        _ => &[],
    }
}

/// The elements of an input; none of an int or a boolean.
fn elements(input: &Input) -> &[i32]
    ensures { result.now ≡ elements_of (input_of input.now) }
{
    match input {
        Input::Ints(ns) => ns.as_slice(),
        _ => &[],
    }
}

/// The first claim of a parameter that its input doesn't meet: its own claims before those on elements.
fn first_of(
    param: usize,
    input: &Input,
    claims: &[Claim],
    ty: &Type_,
    inputs: &[Input],
) -> Option<Unmet>
    ensures { option_map unmet_of result ≡ model.or_else (model.first_own param claims.now (input_reading (input_of input.now)) (input_names (map input_of inputs.now)))
        (model.first_of_elements param (element_claims ty.now) (elements_of (input_of input.now))) }
{
    match first_own(param, claims, read(input), inputs) {
        Some(unmet) => Some(unmet),
        None => first_of_elements(param, claims_in(ty), elements(input)),
    }
}

/// The first claim of the method's parameters that the inputs don't meet: parameter by parameter, own claims before those on elements.
pub fn first_unmet(method: &Method, inputs: &[Input]) -> Option<Unmet>
    ensures first { option_map unmet_of result ≡ model.first_unmet method.now (map input_of inputs.now) }
    ensures within { IfSome result (λ unmet. unmet.param < length inputs.now) }
{
    let params = method.params.as_slice();
    let types = method.param_types.as_slice();
    for number in 0..inputs.len() {
        let Some(param) = params.get(number) else {
            return None;
        };
        let Some(ty) = types.get(number) else {
            return None;
        };
        match first_of(number, &inputs[number], param.claims.as_slice(), ty, inputs) {
            Some(unmet) => return Some(unmet),
            None => {}
        }
    }
    None
}
