//! Landmarks.

ghost use Rattle.std.specs.Prelude.{◌≡◌, ◌↔◌, List, ℤ, IfOk, OnOk};
ghost use Rattle.ix_facts.specs.Round.{IsAmong, IsLandmark, Rises};
ghost use Rattle.ix_facts.specs.MethodLandmarks.{method_numbers, AreLandmarksOf};
ghost use Rattle.ix_landmarks.specs.Items.{AddsNear, IsAscending};

use crate::bodies::push_block;
use crate::numbers::{push_both, push_declared, push_fields, push_locals};
use ix_core::{Method, Program, instance_fields};
use ix_facts::Landmarks;
use ix_text::List;
use std::alloc::{AllocError, Global};

/// The numbers that the text of a method and the declarations that it uses speak of.
fn numbers(alloc: Global, program: &Program, method: &Method) -> Result<Vec<i32>, AllocError>
    ensures { IfOk result (λ numbers. numbers.items ≡ method_numbers program.now method.now) }
{
    let mut out = Vec::new(alloc);
    push_declared(&mut out, method)
        .and(push_locals(&mut out, method.locals.as_slice()))
        .and(push_block(&mut out, program, &method.body))?;
    if method.constructor {
        let fields = instance_fields(alloc, program, method.class)?;
        push_fields(&mut out, program, &fields)?;
    }
    Ok(out)
}

/// A number and the ints beside it. An end of the int range has itself beside it.
fn push_near(out: &mut Vec<i32>, number: i32) -> Result<(), AllocError>
    ensures { OnOk result (AddsNear number out.old.items out.new.items) }
{
    out.push(number.saturating_sub(1))?;
    push_both(out, number, number.saturating_add(1))
}

/// The landmarks for these numbers, in any order.
fn marks_of(alloc: Global, numbers: &[i32]) -> Result<Vec<i32>, AllocError>
    ensures { IfOk result (λ marks. (n : ℤ) → IsAmong n marks.items ↔ IsLandmark numbers.now n) }
{
    let mut marks = Vec::new(alloc);
    push_both(&mut marks, i32::MIN, i32::MAX).and(push_near(&mut marks, 0))?;
    for number in numbers {
        push_near(&mut marks, *number)?;
    }
    Ok(marks)
}

/// Ascending ints, each once.
fn each_once(alloc: Global, sorted: &[i32]) -> Result<List<i32>, AllocError>
    requires { IsAscending sorted.now }
    ensures rises { IfOk result Rises }
    ensures same { IfOk result (λ ints. (n : ℤ) → IsAmong n ints ↔ IsAmong n sorted.now) }
{
    let mut ints = List::new(alloc);
    let mut last = None;
    for number in sorted {
        if last != Some(*number) {
            ints.push(*number)?;
            last = Some(*number);
        }
    }
    Ok(ints)
}

/// The landmarks of a method: the ints at most 1 away from a number that its text or a declaration that it uses speaks of, -1, 0, 1 and the ends of the
/// int range, in ascending order. The one error is want of memory.
pub fn landmarks(alloc: Global, program: &Program, method: &Method) -> Result<Landmarks, AllocError>
    ensures landmarks { IfOk result (λ marks. AreLandmarksOf program.now method.now marks.ints) }
{
    let numbers = numbers(alloc, program, method)?;
    let mut marks = marks_of(alloc, &numbers)?;
    marks.sort_unstable();
    let ints = each_once(alloc, &marks)?;
    Ok(Landmarks { ints })
}
