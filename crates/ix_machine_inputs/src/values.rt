//! Words as inputs of a type.
ghost use Rattle.std.specs.Prelude.{◌≡◌, ℕ, length, map, option_map, IfOk, IsErrOf, List as Elements};
ghost use Rattle.ix_core.specs.declared.claim.Claim.{Claim};
ghost use Rattle.ix_core.specs.declared.claim.Base.TheVariants as base;
ghost use Rattle.ix_core.specs.declared.claim.Type_.TheVariants as type_;
ghost use Rattle.ix_machine_inputs.specs.Shown as shown;
ghost use Rattle.ix_machine_inputs.specs.Words.{WritesInput, AreValues, IsFirstWrong};

use crate::input::Input;
use crate::words::{bool_in, int_in, ints_in};
use ix_core::{Base, Type_};
use ix_text::List;
use std::alloc::{AllocError, AllocFailed, Global};

#[tactic(auto, using(crate::proofs::Typed::int_is))]
/// The word as an int. The one error is want of memory.
fn int_input(alloc: Global, word: &str) -> Result<Option<Input>, AllocError>
    ensures { IfOk result (λ found. WritesInput (type_.Plain base.Int) word.now (option_map shown.input_of found)) }
{
    match int_in(alloc, word)? {
        Some(n) => Ok(Some(Input::Int(n))),
        None => Ok(None),
    }
}

#[tactic(auto, using(crate::proofs::Typed::bool_is))]
/// The word as a boolean.
fn bool_input(word: &str) -> Option<Input>
    ensures { WritesInput (type_.Plain base.Bool) word.now (option_map shown.input_of result) }
{
    match bool_in(word) {
        Some(answer) => Some(Input::Bool(answer)),
        None => None,
    }
}

/// The word as the ints of an array, whose length is an int. The one error is want of memory.
#[tactic(auto, using(crate::proofs::Typed::array_is, crate::proofs::Typed::long_is, crate::proofs::Typed::ints_are))]
fn array_input(alloc: Global, word: &str) -> Result<Option<Input>, AllocError>
    ensures { IfOk result (λ found. (element : Elements Claim) → WritesInput (type_.Array base.Int 1 element) word.now (option_map shown.input_of found)) }
{
    match ints_in(alloc, word)? {
        Some(ns) => {
            if ns.len() <= 2147483647 {
                Ok(Some(Input::Ints(ns)))
            } else {
                Ok(None)
            }
        }
        None => Ok(None),
    }
}

/// The word as a value of an int, a boolean or an object. The one error is want of memory.
#[tactic(auto, using(crate::proofs::Typed::object_is))]
fn plain_input(alloc: Global, of: Base, word: &str) -> Result<Option<Input>, AllocError>
    ensures { IfOk result (λ found. WritesInput (type_.Plain of) word.now (option_map shown.input_of found)) }
{
    match of {
        Base::Int => int_input(alloc, word),
        Base::Bool => Ok(bool_input(word)),
        Base::Class(_) => Ok(None),
    }
}

/// The word as an array. The one error is want of memory.
#[tactic(auto, using(crate::proofs::Typed::bools_are, crate::proofs::Typed::objects_are, crate::proofs::Typed::arrays_are))]
fn arrays_input(
    alloc: Global,
    of: Base,
    depth: u32,
    word: &str,
) -> Result<Option<Input>, AllocError>
    ensures { IfOk result (λ found. (element : Elements Claim) → WritesInput (type_.Array of depth element) word.now (option_map shown.input_of found)) }
{
    match of {
        Base::Int => {
            if depth == 1 {
                array_input(alloc, word)
            } else {
                Ok(None)
            }
        }
        Base::Bool => Ok(None),
        Base::Class(_) => Ok(None),
    }
}

/// The input of the type that the word writes; none where it writes no value of the type. The one error is want of memory.
#[tactic(auto, using(crate::proofs::Typed::void_is))]
pub fn input_of(alloc: Global, ty: &Type_, word: &str) -> Result<Option<Input>, AllocError>
    ensures { IfOk result (λ found. WritesInput ty.now word.now (option_map shown.input_of found)) }
{
    match ty {
        Type_::Void => Ok(None),
        Type_::Plain(of) => plain_input(alloc, *of, word),
        Type_::Array { base, depth, .. } => arrays_input(alloc, *base, *depth, word),
    }
}

/// Why words are no inputs.
#[derive(Clone, Copy)]
pub enum InputError {
    /// The word of that number, from 1, is the first that writes no value of its parameter's type.
    WrongKind(usize),
    Memory,
}

impl From<AllocError> for InputError {
    ghost use Rattle.std.specs.Prelude.{◌≡◌};
    ghost use Rattle.ix_machine_inputs.specs.declared.values.InputError.TheVariants.{Memory};

    ghost from_gives = { λ _ error. error ≡ Memory };

    fn from(_error: AllocError) -> InputError {
        InputError::Memory
    }
}

impl From<AllocFailed<Input>> for InputError {
    ghost use Rattle.std.specs.Prelude.{◌≡◌};
    ghost use Rattle.ix_machine_inputs.specs.declared.values.InputError.TheVariants.{Memory};

    ghost from_gives = { λ _ error. error ≡ Memory };

    fn from(_error: AllocFailed<Input>) -> InputError {
        InputError::Memory
    }
}

/// The inputs that the words write, one for each type.
pub fn inputs_of(alloc: Global, types: &[Type_], words: &[&str]) -> Result<List<Input>, InputError>
    requires { length words.now ≡ length types.now }
    ensures inputs { IfOk result (λ inputs. AreValues types.now (map (λ word. word.now) words.now) (map shown.input_of inputs)) }
    ensures wrong { (number : ℕ) → IsErrOf result (InputError.WrongKind number) → IsFirstWrong types.now (map (λ word. word.now) words.now) number }
{
    let mut inputs = List::new(alloc);
    for (number, ty) in types.iter().enumerate() {
        let Some(input) = input_of(alloc, ty, words[number])? else {
            return Err(InputError::WrongKind(number + 1));
        };
        inputs.push(input)?;
    }
    Ok(inputs)
}
