//! A machine that runs a program.
//! Steps are inlined where they are made, so that a run's loop has no call in it.
ghost use Rattle.std.specs.Prelude.{◌≡◌, ◌≤◌, ◌<◌, ◌^◌, [], length, map, Option, option_map, None, Some, Ok, Err, false, Bool, IfOk, IfErr, IfSome};
ghost use Rattle.ix_core.specs.Machine as model;
ghost use Rattle.ix_core.specs.Machine.{frame, slots_with, event_values};
ghost use Rattle.ix_core.specs.Tables.{tables_of, method_at, body_of};
ghost use Rattle.ix_core.specs.Tasks.{Empty, code_then};
ghost use Rattle.ix_machine_state.specs.Rows.{held_of};
ghost use Rattle.ix_machine_state.specs.Waiting.{HasRoom};
ghost use Rattle.ix_core.specs.Traces.{next_access};
ghost use Rattle.ix_machine.specs.Accesses.{access_of, HasSize};
ghost use Rattle.ix_machine.specs.Events.{event_of};
ghost use Rattle.ix_machine.specs.Fit.{fits_once};
ghost use Rattle.ix_machine.specs.Programs.{places_of, values_of};
ghost use Rattle.ix_machine_state.specs.View.{heap_of};
ghost use Rattle.ix_machine.specs.Turns.{state_with};

use crate::access::{Access, access_in};
use crate::calls::{body_in, slots_in};
use crate::needs::program_room;
use crate::operations::Done;
use crate::rows::Rows;
use crate::start::{Limits, StartError, entry_with, unmet_in, values_of};
use crate::straight::do_operations;
use crate::turns::turn;
use ix_core::{Outcome, Program};
use ix_machine_state::{Frame, Heap, Held, Pool};
use std::alloc::{AllocError, Global};

/// What a step tells: that the run goes on, that it goes on and printed a value, or that it has stopped.
#[derive(Clone, Copy)]
pub enum Event {
    Went,
    Printed(Held),
    Stopped,
}

/// How many steps were made, and what the last of them tells.
#[derive(Clone, Copy)]
pub struct Steps {
    pub made: u32,
    pub event: Event,
}

/// A run of a program: its frames, its heap, whether a result wrapped, and how it ended, if it did.
#[derive(Drop)]
pub struct Machine<'p> {
    rows: Rows<'p>,
    frame: Frame<'p>,
    pool: Pool<'p>,
    heap: Heap<'p>,
    wrapped: bool,
    ended: Option<Outcome<'p>>,
    ghost fits: { HasRoom pool.room frame } by { fits_once pool.room frame },
    ghost places: { places_of rows.program.now.methods ≤ pool.room.places },
    ghost values: { values_of rows.program.now.methods ≤ pool.room.values },
}

impl<'p> Machine<'p> {
    ghost use Rattle.ix_machine.specs.State.{state_of, limits_of};
    ghost use Rattle.ix_machine.specs.Starts.{Starts, IsStart, Refuses};

    /// A run of the method that the entry means, as `CLASS.METHOD`, with the inputs that the words write, one for each of its parameters.
    pub fn new(
        alloc: Global,
        program: &'p Program,
        entry: &str,
        inputs: &[&str],
        limits: Limits,
    ) -> Result<Machine<'p>, StartError>
        requires { record {
          cells : limits.cells < 2 ^ 31;
          frames : 0 < limits.frames;
        } }
        ensures begins { IfOk result (λ machine. Starts program.now entry.now (map (λ word. word.now) inputs.now) limits.cells (Ok (state_of machine))) }
        ensures entered { IfOk result (λ machine. IsStart program.now (state_of machine)) }
        ensures refused { IfErr result (Refuses program.now entry.now (map (λ word. word.now) inputs.now) limits.cells) }
        ensures limits { IfOk result (λ machine. limits_of machine ≡ model.with_limits limits.cells limits.frames) }
        ensures program { IfOk result (λ machine. machine.rows.program.now ≡ program.now) }
    {
        let begun = entry_with(alloc, program, entry, inputs)?;
        if let Some(why) = unmet_in(&begun) {
            return Err(why);
        }
        let mut heap = Heap::new(alloc, limits.cells)?;
        let types = begun.found.param_types.as_slice();
        let Some(values) = values_of(alloc, &mut heap, types, begun.inputs.as_slice())? else {
            return Err(StartError::InputsTooLarge);
        };
        let machine = Machine::at_start(
            alloc,
            program,
            begun.method,
            values.as_slice(),
            heap,
            limits.frames,
        )?;
        Ok(machine)
    }

    /// The machine that begins a method, whose first slots hold these values. The one error is want of memory.
    fn at_start(
        alloc: Global,
        program: &'p Program,
        method: u32,
        values: &[Held],
        heap: Heap<'p>,
        frames: u32,
    ) -> Result<Machine<'p>, AllocError>
        requires frames { 0 < frames }
        requires values { length values.now ≤ length (method_at program.now method).param_types }
        ensures state { IfOk result (λ machine. state_of machine ≡ state_with (frame method (code_then (body_of (method_at program.now method)) Empty)
            (slots_with (method_at program.now method).slots (map held_of values.now))) [] (heap_of heap.entry) false) }
        ensures limits { IfOk result (λ machine. limits_of machine ≡ model.with_limits heap.entry.most frames) }
        ensures program { IfOk result (λ machine. machine.rows.program.now ≡ program.now) }
    {
        let rows = Rows::new(alloc, program)?;
        let room = program_room(program)?;
        let pool = Pool::new(alloc, room, frames)?;
        let mut frame = Frame::new(alloc, room)?;
        frame.start(
            method,
            body_in(program, method),
            slots_in(program, method),
            values,
        );
        Ok(Machine {
            rows,
            frame,
            pool,
            heap,
            wrapped: false,
            ended: None,
        })
    }

    /// How the run ended; none while it goes on.
    pub fn outcome(&self) -> Option<&Outcome<'p>>
        ensures { option_map (λ outcome. model.ending_of outcome.now) result ≡ (state_of self.now).ended }
    {
        match &self.ended {
            Some(outcome) => Some(outcome),
            None => None,
        }
    }

    /// Whether an operation had an exact result that is no int.
    pub fn wrapped(&self) -> bool
        ensures { result ≡ (state_of self.now).wrapped }
    {
        self.wrapped
    }

    /// The access that the next step makes; none exactly where the run has ended or that step is no load or store on an array that isn't null. It takes no memory.
    pub fn next_access(&self) -> Option<Access>
        ensures { record {
          access : option_map access_of result ≡ next_access (state_of self.now);
          size : IfSome result HasSize;
        } }
    {
        if self.ended.is_some() {
            return None;
        }
        access_in(&self.frame, &self.heap)
    }

    /// One step of a run that has not ended; it takes no memory.
    #[inline(always)]
    pub fn step(&mut self) -> Event
        requires { (state_of self.old).ended ≡ None }
        ensures state { state_of self.new ≡ model.step (limits_of self.old) (tables_of self.old.rows.program.now) (state_of self.old) }
        ensures event { event_of result ≡ model.step_event (limits_of self.old) (tables_of self.old.rows.program.now) (state_of self.old) }
        ensures limits { limits_of self.new ≡ limits_of self.old }
        ensures program { self.new.rows ≡ self.old.rows }
    {
        match turn(&self.rows, &mut self.frame, &mut self.pool, &mut self.heap) {
            Done::Done => Event::Went,
            Done::Wrapped => {
                self.wrapped = true;
                Event::Went
            }
            Done::Printed(value) => Event::Printed(value),
            Done::Stopped(outcome) => {
                self.ended = Some(outcome);
                Event::Stopped
            }
        }
    }

    /// Steps of a run that has not ended: at least one and at most so many, of which only the last may print or stop the run; they take no memory.
    #[inline(always)]
    pub fn steps(&mut self, most: u32) -> Steps
        requires { record {
          goes : (state_of self.old).ended ≡ None;
          some : 0 < most;
        } }
        ensures state { state_of self.new ≡ model.run (limits_of self.old) (tables_of self.old.rows.program.now) result.made (state_of self.old) }
        ensures printed { event_values (event_of result.event) ≡ model.printed (limits_of self.old) (tables_of self.old.rows.program.now) result.made (state_of self.old) }
        ensures some { 0 < result.made }
        ensures most { result.made ≤ most }
        ensures limits { limits_of self.new ≡ limits_of self.old }
        ensures program { self.new.rows ≡ self.old.rows }
    {
        let made = do_operations(
            &self.rows,
            &mut self.frame,
            &mut self.heap,
            most,
            &mut self.wrapped,
        );
        if made == most {
            return Steps {
                made,
                event: Event::Went,
            };
        }
        let event = self.step();
        Steps {
            made: made + 1,
            event,
        }
    }
}
