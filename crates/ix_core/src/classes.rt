//! Classes and methods by their numbers, and the method that a call runs.
ghost use Rattle.std.specs.Prelude.{◌≡◌, flat_map, IfOk, Option};
ghost use Rattle.ix_core.specs.Tables.{class_at, method_at, overridden, ancestors, all_fields, is_among, first_where, found_method};

use crate::program::Program;
use std::alloc::{AllocError, Global};

/// The class that a class extends.
pub fn parent_of(program: &Program, class: u32) -> Option<u32>
    ensures { result ≡ (class_at program.now class).parent }
{
    match program.classes.as_slice().get(class as usize) {
        Some(found) => found.parent,
        None => None,
    }
}

/// The numbers of a class's own methods.
fn methods_of(program: &Program, class: u32) -> &[u32]
    ensures { result.now ≡ (class_at program.now class).methods }
{
    match program.classes.as_slice().get(class as usize) {
        Some(found) => found.methods.as_slice(),
        None => &[],
    }
}

/// The numbers of a class's own fields.
pub fn fields_of(program: &Program, class: u32) -> &[u32]
    ensures { result.now ≡ (class_at program.now class).fields }
{
    match program.classes.as_slice().get(class as usize) {
        Some(found) => found.fields.as_slice(),
        None => &[],
    }
}

/// The method that a method overrides.
fn overridden_by(program: &Program, method: u32) -> Option<u32>
    ensures { result ≡ (method_at program.now method).overrides }
{
    match program.methods.as_slice().get(method as usize) {
        Some(found) => found.overrides,
        None => None,
    }
}

/// Whether a method is the named one, or overrides it, directly or through others (JLS 8.4.8).
fn is_or_overrides(program: &Program, method: u32, named: u32) -> bool
    ensures { result ≡ is_among (overridden program.now method) named }
{
    let mut at = Some(method);
    let mut left = 32u32;
    while left > 0 {
        left -= 1;
        let number = match at {
            Some(number) => number,
            None => return false,
        };
        if number == named {
            return true;
        }
        at = overridden_by(program, number);
    }
    false
}

/// The first of these methods that is the named one or overrides it.
fn first_over(program: &Program, methods: &[u32], named: u32) -> Option<u32>
    ensures { result ≡ first_where (λ method. is_among (overridden program.now method) named) methods.now }
{
    for method in methods {
        if is_or_overrides(program, *method, named) {
            return Some(*method);
        }
    }
    None
}

/// The method that runs for an object of the class where the named one is called (JLS 15.12.4.4).
pub fn found(program: &Program, class: u32, named: u32) -> u32
    ensures { result ≡ found_method program.now class named }
{
    let mut above = Some(class);
    let mut left = 32u32;
    while left > 0 {
        left -= 1;
        let number = match above {
            Some(number) => number,
            None => return named,
        };
        match first_over(program, methods_of(program, number), named) {
            Some(method) => return method,
            None => {}
        }
        above = parent_of(program, number);
    }
    named
}

/// A class and its ancestors, nearest first (JLS 8.1.4). The one error is want of memory.
fn way_up(alloc: Global, program: &Program, class: u32) -> Result<Vec<u32>, AllocError>
    ensures { IfOk result (λ classes. classes.items ≡ ancestors program.now class) }
{
    let mut classes = Vec::new(alloc);
    let mut above = Some(class);
    let mut left = 32u32;
    while left > 0 {
        left -= 1;
        let number = match above {
            Some(number) => number,
            None => return Ok(classes),
        };
        classes.push(number)?;
        above = parent_of(program, number);
    }
    Ok(classes)
}

/// The fields of a class's instances by their numbers, inherited ones first (JLS 8.2). The one error is want of memory.
pub fn instance_fields(alloc: Global, program: &Program, class: u32) -> Result<Vec<u32>, AllocError>
    ensures { IfOk result (λ fields. fields.items ≡ all_fields program.now class) }
{
    let mut classes = way_up(alloc, program, class)?;
    let mut fields = Vec::new(alloc);
    while let Some(number) = classes.pop() {
        fields.extend_from_slice(fields_of(program, number))?;
    }
    Ok(fields)
}
