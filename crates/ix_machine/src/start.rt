//! How a run begins.
ghost use Rattle.std.specs.Prelude.{◌≡◌, ◌<◌, ◌≤◌, ◌+◌, ◌++◌, [], ◌∷◌, ℕ, length, map, option_map, IfOk, IfErr, IfSome, OnSome, IfNone};
ghost use Rattle.ix_core.specs.Heap.{cells_used};
ghost use Rattle.ix_core.specs.Inputs as model;
ghost use Rattle.ix_core.specs.Safe.{input_heap, input_values};
ghost use Rattle.ix_core.specs.Tables.{method_at};
ghost use Rattle.ix_machine_state.specs.Rows.{held_of};
ghost use Rattle.ix_machine_state.specs.View.{heap_of};
ghost use Rattle.ix_machine_inputs.specs.Shown.{input_of};
ghost use Rattle.ix_machine.specs.Starts.{Given, Refuses, refusal_of};

use ix_core::{Claim, Method, Program, Type_};
use ix_machine_inputs::{Input, InputError, entry_of, first_unmet, inputs_of};
use ix_machine_state::{Heap, Held};
use ix_text::List;
use std::alloc::{AllocError, Global};

/// How many cells and frames a run may have.
#[derive(Clone, Copy)]
pub struct Limits {
    /// The cells of all that is ever made: an array takes one more than its length, and an object one more than its fields.
    pub cells: u32,
    /// The frames at one time.
    pub frames: u32,
}

/// Why no run begins. The first cause in this order is told.
#[derive(Clone, Copy)]
pub enum StartError {
    /// The entry isn't `CLASS.METHOD` for a static method whose parameters are int, boolean or `int[]`.
    NotEntry,
    /// There are more or fewer inputs than parameters.
    WrongCount,
    /// The first input, counted from 1, that is no value of its parameter's type.
    WrongKind(usize),
    /// A method, the first input of it, counted from 1, that doesn't meet a claim of its parameter, and the first such claim: one on the parameter before one
    /// on its elements.
    Unmet(u32, usize, Claim),
    /// The input arrays need more cells than there may be.
    InputsTooLarge,
    Memory,
}

impl From<AllocError> for StartError {
    ghost use Rattle.std.specs.Prelude.{◌≡◌};
    ghost use Rattle.ix_machine.specs.declared.start.StartError.TheVariants.{Memory};

    ghost from_gives = { λ _ error. error ≡ Memory };

    fn from(_error: AllocError) -> StartError {
        StartError::Memory
    }
}

/// A method that a run begins with, and its inputs.
#[derive(Drop)]
pub struct Entry<'p> {
    pub method: u32,
    pub found: &'p Method,
    pub inputs: List<Input>,
}

/// The method that the entry means, and the inputs that the words write for it.
pub fn entry_with<'p>(
    alloc: Global,
    program: &'p Program,
    entry: &str,
    words: &[&str],
) -> Result<Entry<'p>, StartError>
    ensures given { IfOk result (λ begun. Given program.now entry.now (map (λ word. word.now) words.now) begun.method (map input_of begun.inputs)) }
    ensures found { IfOk result (λ begun. begun.found.now ≡ method_at program.now begun.method) }
    ensures refused { (cells : ℕ) → IfErr result (Refuses program.now entry.now (map (λ word. word.now) words.now) cells) }
{
    let Some(place) = entry_of(program, entry) else {
        return Err(StartError::NotEntry);
    };
    let Some(found) = program.methods.as_slice().get(place) else {
        unreachable!()
    };
    // More methods than have numbers are more than there is memory for.
    let Ok(method) = u32::try_from(place) else {
        return Err(StartError::Memory);
    };
    let types = found.param_types.as_slice();
    if words.len() != types.len() {
        return Err(StartError::WrongCount);
    }
    match inputs_of(alloc, types, words) {
        Ok(inputs) => Ok(Entry {
            method,
            found,
            inputs,
        }),
        Err(InputError::WrongKind(number)) => Err(StartError::WrongKind(number)),
        Err(InputError::Memory) => Err(StartError::Memory),
    }
}

/// The first claim that the inputs don't meet, as what stands in the way of the run.
pub fn unmet_in(entry: &Entry<'_>) -> Option<StartError>
    ensures { result ≡ option_map (refusal_of entry.now.method) (model.first_unmet entry.now.found.now (map input_of entry.now.inputs)) }
{
    match first_unmet(entry.found, entry.inputs.as_slice()) {
        Some(unmet) => Some(StartError::Unmet(entry.method, unmet.param + 1, unmet.claim)),
        None => None,
    }
}

/// The value of an input, for which an array is made on the heap; none where it needs more cells than there may be.
fn input_value<'p>(heap: &mut Heap<'p>, ty: &'p Type_, input: &Input) -> Option<Held>
    requires { cells_used (heap_of heap.old) ≤ heap.old.most }
    ensures value { IfSome result (λ held. held_of held ∷ [] ≡ input_values (length (heap_of heap.old)) (input_of input.now ∷ [])) }
    ensures made { OnSome result (heap_of heap.new ≡ heap_of heap.old ++ input_heap (input_of input.now ∷ []) (ty.now ∷ [])) }
    ensures fits { OnSome result (cells_used (heap_of heap.new) ≤ heap.old.most) }
    ensures large { IfNone result (heap.old.most < cells_used (heap_of heap.old ++ input_heap (input_of input.now ∷ []) (ty.now ∷ []))) }
    ensures most { heap.new.most ≡ heap.old.most }
{
    match input {
        Input::Int(n) => Some(Held::Int(*n)),
        Input::Bool(answer) => Some(Held::Bool(*answer)),
        Input::Ints(ns) => {
            let ns = ns.as_slice();
            if heap.lacks(ns.len()) {
                return None;
            }
            Some(Held::At(heap.make_ints(ty, ns)))
        }
    }
}

/// The values of inputs, whose arrays are made on a heap without objects; none where they need more cells than there may be. The one error is want of memory.
pub fn values_of<'p>(
    alloc: Global,
    heap: &mut Heap<'p>,
    types: &'p [Type_],
    inputs: &[Input],
) -> Result<Option<Vec<Held>>, AllocError>
    requires empty { heap_of heap.old ≡ [] }
    requires count { length inputs.now ≡ length types.now }
    ensures values { IfOk result (λ found. IfSome found (λ values. map held_of values.items ≡ input_values 0 (map input_of inputs.now))) }
    ensures made { IfOk result (λ found. OnSome found (heap_of heap.new ≡ input_heap (map input_of inputs.now) types.now)) }
    ensures fits { IfOk result (λ found. OnSome found (cells_used (input_heap (map input_of inputs.now) types.now) ≤ heap.old.most)) }
    ensures large { IfOk result (λ found. IfNone found (heap.old.most < cells_used (input_heap (map input_of inputs.now) types.now))) }
    ensures most { heap.new.most ≡ heap.old.most }
{
    let mut values = Vec::with_capacity(alloc, inputs.len())?;
    for (number, ty) in types.iter().enumerate() {
        let Some(value) = input_value(heap, ty, &inputs[number]) else {
            return Ok(None);
        };
        values.push(value)?;
    }
    Ok(Some(values))
}
