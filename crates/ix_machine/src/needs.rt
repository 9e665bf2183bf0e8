//! The room that a program's methods need.
ghost use Rattle.std.specs.Prelude.{◌≡◌, ◌+◌, max, length, IfOk};
ghost use Rattle.ix_core.specs.Tables.{body_of};
ghost use Rattle.ix_machine_state.specs.Room.{code_above, code_values};
ghost use Rattle.ix_machine.specs.Programs.{places_of, values_of};

use ix_core::{Method, Program};
use ix_machine_state::{Room, items_needs};
use std::alloc::AllocError;

/// The room that a method's frame needs. The one error is want of memory: more places than can be counted.
fn method_room(method: &Method) -> Result<Room, AllocError>
    ensures { IfOk result (λ room. room ≡ record { places = 1 + code_above (body_of method.now); values = max (max method.now.slots (length method.now.param_types)) (code_values (body_of method.now)) }) }
{
    let needs = items_needs(method.body.items.as_slice())?;
    let places = needs.above + 1;
    let slots = (method.slots as usize).max(method.param_types.len());
    let values = slots.max(needs.values);
    Ok(Room { places, values })
}

/// The room that the frames of a program's methods need. The one error is want of memory.
pub fn program_room(program: &Program) -> Result<Room, AllocError>
    ensures { record {
      places : IfOk result (λ room. room.places ≡ places_of program.now.methods);
      values : IfOk result (λ room. room.values ≡ values_of program.now.methods);
    } }
{
    let mut places = 1;
    let mut values = 0;
    let methods = program.methods.as_slice();
    for method in methods {
        let room = method_room(method)?;
        places = room.places.max(places);
        values = room.values.max(values);
    }
    Ok(Room { places, values })
}
