//! The fields of the instances of each class, found once.
ghost use Rattle.std.specs.Prelude.{◌≡◌, ◌≤◌, ◌⊎◌, IfOk, ℕ, Some, [], length, map, slice_get, Vec};
ghost use Rattle.std.specs.declared.alloc.Global.{Global};
ghost use Rattle.ix_core.specs.Tables.{all_fields, place_among};
ghost use Rattle.ix_machine.specs.Rows.{AreFields, fields_once};

use ix_core::{Program, instance_fields};
use std::alloc::{AllocError, Global};

/// How many numbers of classes there are: they have 32 bits.
const NUMBERS: usize = 4_294_967_296;

/// A program with the fields of the instances of each class, inherited ones first.
#[derive(Drop)]
pub struct Rows<'p> {
    pub program: &'p Program,
    fields: Vec<Vec<u32>>,
    ghost right: { AreFields program.now fields.items } by { fields_once program.now fields.items },
}

impl<'p> Rows<'p> {
    /// The rows of a program. The one error is want of memory.
    pub fn new(alloc: Global, program: &'p Program) -> Result<Rows<'p>, AllocError>
        ensures { IfOk result (λ rows. rows.program.now ≡ program.now) }
    {
        let count = program.classes.len().min(NUMBERS);
        let mut fields = Vec::with_capacity(alloc, count)?;
        for class in 0..count {
            fields.push(instance_fields(alloc, program, class as u32)?)?;
        }
        Ok(Rows { program, fields })
    }

    /// The fields of a class's instances by their numbers.
    pub fn fields(&self, class: u32) -> &[u32]
        ensures { result.now ≡ all_fields self.now.program.now class }
    {
        row_at(self.fields.as_slice(), class)
    }

    /// The place of a field among the cells of a class's instances, if they have it.
    pub fn place(&self, class: u32, field: u32) -> Option<usize>
        ensures { result ≡ place_among (all_fields self.now.program.now class) field }
    {
        place_in(self.fields(class), field)
    }
}

/// The row of that number, which is empty where there is none.
fn row_at(rows: &[Vec<u32>], number: u32) -> &[u32]
    ensures { Some result.now ≡ slice_get (map (λ (row : Vec ℕ Global). row.items) rows.now) number ⊎ ((length rows.now ≤ number) × (result.now ≡ [])) }
{
    match rows.get(number as usize) {
        Some(row) => row.as_slice(),
        None => &[],
    }
}

/// The place of a number in a list, if it is there.
fn place_in(numbers: &[u32], number: u32) -> Option<usize>
    ensures { result ≡ place_among numbers.now number }
{
    for (place, one) in numbers.iter().enumerate() {
        if *one == number {
            return Some(place);
        }
    }
    None
}
