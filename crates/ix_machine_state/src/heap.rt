//! The heap: arrays and objects by their numbers, whose cells lie one behind the other in one row that was reserved.
ghost use Rattle.std.specs.Prelude.{◌≡◌, true, false, IfOk, IfErr, IfSome, IfNone, slice_get, slice_set, get_or, ℕ, pos, unsigned_abs, ◌<◌, ◌≤◌, ◌+◌, ◌^◌, ◌++◌, [], ◌∷◌, length, vec_len, vec_capacity, map, replicate, nat_lt, option_map};
ghost use Rattle.ix_core.specs.declared.claim.Type_.{Type_};
ghost use Rattle.ix_core.specs.Heap as model;
ghost use Rattle.ix_core.specs.Heap.{array_at, object_at, value_at, write_at, cells_used, cell_default, Num, ArrayOf, ObjectOf, nothing, is_within};
ghost use Rattle.ix_core.specs.Machine.{object_shown, value_shown};
ghost use Rattle.ix_machine_state.specs.declared.held.Held.{Held};
ghost use Rattle.ix_core.specs.Tables.{field_at};
ghost use Rattle.ix_machine_state.specs.Added.{Added};
ghost use Rattle.ix_machine_state.specs.Layout.{IsLaidOut, laid_out_once};
ghost use Rattle.ix_machine_state.specs.Rows.{held_of, kind_of, objects_of};

use crate::held::{Held, cell_default, default_of};
use ix_core::{Program, Type_, Value};
use std::alloc::{AllocError, Global};

/// An array of a type, or an object of a class.
#[derive(Clone, Copy)]
pub enum Kind<'p> {
    Array(&'p Type_),
    Object(u32),
}

/// An array or object: where its cells begin, and how many it has.
#[derive(Clone, Copy)]
pub struct Row<'p> {
    kind: Kind<'p>,
    from: usize,
    len: usize,
}

/// Arrays and objects, with the cells of all, and how many cells there may be.
#[derive(Drop)]
pub struct Heap<'p> {
    rows: Vec<Row<'p>>,
    cells: Vec<Held>,
    most: u32,
    ghost apart: { IsLaidOut 0 rows.items (vec_len cells) } by { laid_out_once 0 rows.items (vec_len cells) },
    ghost within: { vec_len cells + vec_len rows ≤ most },
    ghost row_room: { most ≤ vec_capacity rows },
    ghost cell_room: { most ≤ vec_capacity cells },
    ghost small: { most < 2 ^ 31 },
}

impl<'p> Heap<'p> {
    ghost use Rattle.ix_machine_state.specs.View.{heap_of};

    /// A heap without objects, with memory for that many cells. The one error is want of memory.
    pub fn new(alloc: Global, most: u32) -> Result<Heap<'p>, AllocError>
        requires { most < 2 ^ 31 }
        ensures empty { IfOk result (λ heap. heap_of heap ≡ []) }
        ensures most { IfOk result (λ heap. heap.most ≡ most) }
    {
        let rows = Vec::with_capacity(alloc, most as usize)?;
        let cells = Vec::with_capacity(alloc, most as usize)?;
        Ok(Heap { rows, cells, most })
    }

    /// Whether a new object with that many cells would pass the most cells; it takes one more than it has.
    pub fn lacks(&self, len: usize) -> bool
        requires { len < 2 ^ 63 }
        ensures { result ≡ nat_lt self.now.most (cells_used (heap_of self.now) + (len + 1)) }
    {
        let used = self.cells.len() as u64 + self.rows.len() as u64;
        used + (len as u64 + 1) > self.most as u64
    }

    /// The row of an object; none where there is none.
    fn row(&self, number: u32) -> Option<Row<'p>>
        ensures kind { IfSome result (λ row. (object_at (heap_of self.now) number).kind ≡ kind_of row.kind) }
        ensures size { IfSome result (λ row. row.len ≡ length (object_at (heap_of self.now) number).cells) }
        ensures within { IfSome result (λ row. row.from + row.len ≤ vec_len self.now.cells) }
        ensures value { IfSome result (λ row. (index : ℕ) (default : Held) → index < row.len
            → held_of (get_or self.now.cells.items (row.from + index) default) ≡ value_at (object_at (heap_of self.now) number).cells index) }
        ensures written { IfSome result (λ row. (index : ℕ) (value : Held) → index < row.len
            → objects_of self.now.rows.items (slice_set self.now.cells.items (row.from + index) value) ≡ write_at (heap_of self.now) number index (held_of value)) }
        ensures none { IfNone result (object_at (heap_of self.now) number ≡ nothing) }
    {
        match row_at(self.rows.as_slice(), number) {
            Some(row) => Some(row),
            None => None,
        }
    }

    /// The class of an object; none of an array, and where there is nothing.
    pub fn class_of(&self, number: u32) -> Option<u32>
        ensures { record {
          class : IfSome result (λ class. (object_at (heap_of self.now) number).kind ≡ ObjectOf class);
          array : IfNone result ((ty : Type_) × ((object_at (heap_of self.now) number).kind ≡ ArrayOf ty));
        } }
    {
        match self.row(number) {
            Some(row) => match row.kind {
                Kind::Array(_) => None,
                Kind::Object(class) => Some(class),
            },
            None => None,
        }
    }

    /// The row of an array; none of an instance of a class, and where there is nothing.
    fn array(&self, number: u32) -> Option<Row<'p>>
        ensures size { IfSome result (λ row. row.len ≡ length (array_at (heap_of self.now) number)) }
        ensures within { IfSome result (λ row. row.from + row.len ≤ vec_len self.now.cells) }
        ensures value { IfSome result (λ row. (index : ℕ) (default : Held) → index < row.len
            → held_of (get_or self.now.cells.items (row.from + index) default) ≡ value_at (array_at (heap_of self.now) number) index) }
        ensures written { IfSome result (λ row. (index : ℕ) (value : Held) → index < row.len
            → objects_of self.now.rows.items (slice_set self.now.cells.items (row.from + index) value) ≡ write_at (heap_of self.now) number index (held_of value)) }
        ensures none { IfNone result (array_at (heap_of self.now) number ≡ []) }
    {
        match self.row(number) {
            Some(row) => match row.kind {
                Kind::Array(_) => Some(row),
                Kind::Object(_) => None,
            },
            None => None,
        }
    }

    /// The length of an array; 0 of an instance of a class, and where there is nothing.
    pub fn array_len(&self, number: u32) -> usize
        ensures { record {
          size : result ≡ length (array_at (heap_of self.now) number);
          small : result < 2 ^ 31;
        } }
    {
        match self.array(number) {
            Some(row) => row.len,
            None => 0,
        }
    }

    /// The value of a cell of an array, or its length where the index is outside.
    pub fn load(&self, number: u32, index: i32) -> Result<Held, usize>
        ensures read { IfOk result (λ value. (is_within index (length (array_at (heap_of self.now) number)) ≡ true)
            × (held_of value ≡ value_at (array_at (heap_of self.now) number) (unsigned_abs index))) }
        ensures outside { IfErr result (λ size. (is_within index (length (array_at (heap_of self.now) number)) ≡ false)
            × (size ≡ length (array_at (heap_of self.now) number)) × (size < 2 ^ 31)) }
    {
        let Some(row) = self.array(number) else {
            return Err(0);
        };
        match place_within(index, row.len) {
            Some(place) => Ok(self.cells[row.from + place]),
            None => Err(row.len),
        }
    }

    /// Writes a cell of an array, or answers its length where the index is outside.
    pub fn store(&mut self, number: u32, index: i32, value: Held) -> Result<(), usize>
        ensures within { IfOk result (λ done. is_within index (length (array_at (heap_of self.old) number)) ≡ true) }
        ensures written { IfOk result (λ done. heap_of self.new ≡ write_at (heap_of self.old) number (unsigned_abs index) (held_of value)) }
        ensures outside { IfErr result (λ size. (is_within index (length (array_at (heap_of self.old) number)) ≡ false)
            × (size ≡ length (array_at (heap_of self.old) number)) × (size < 2 ^ 31) × (heap_of self.new ≡ heap_of self.old)) }
        ensures most { self.new.most ≡ self.old.most }
    {
        let Some(row) = self.array(number) else {
            return Err(0);
        };
        let Some(place) = place_within(index, row.len) else {
            return Err(row.len);
        };
        self.cells[row.from + place] = value;
        Ok(())
    }

    /// The cell of that place of an object; 0 where there is none.
    pub fn read(&self, number: u32, place: usize) -> Held
        ensures { held_of result ≡ value_at (object_at (heap_of self.now) number).cells place }
    {
        match self.row(number) {
            Some(row) => {
                if place < row.len {
                    self.cells[row.from + place]
                } else {
                    Held::Int(0)
                }
            }
            None => Held::Int(0),
        }
    }

    /// Writes the cell of that place of an object; nothing where there is none.
    pub fn write(&mut self, number: u32, place: usize, value: Held)
        ensures written { heap_of self.new ≡ write_at (heap_of self.old) number place (held_of value) }
        ensures most { self.new.most ≡ self.old.most }
    {
        if let Some(row) = self.row(number) {
            if place < row.len {
                self.cells[row.from + place] = value;
            }
        }
    }

    /// A value as the end of a run shows it: an array by its length, an object by its class.
    pub fn shown(&self, held: Held) -> Value
        ensures { result ≡ value_shown (heap_of self.now) (held_of held) }
    {
        match held {
            Held::Int(n) => Value::Int(n),
            Held::Bool(answer) => Value::Bool(answer),
            Held::Null => Value::NullRef,
            Held::At(number) => self.object_shown(number),
        }
    }

    /// An object as the end of a run shows it.
    fn object_shown(&self, number: u32) -> Value
        ensures { result ≡ object_shown (object_at (heap_of self.now) number).kind (object_at (heap_of self.now) number).cells }
    {
        match self.row(number) {
            Some(row) => match row.kind {
                Kind::Array(_) => Value::ArrayOf(row.len as u32),
                Kind::Object(class) => Value::ObjectOf(class),
            },
            None => Value::ArrayOf(0),
        }
    }

    /// A new array of that many default cells; the answer is its number.
    pub fn make_array(&mut self, ty: &'p Type_, len: usize) -> u32
        requires { cells_used (heap_of self.old) + (len + 1) ≤ self.old.most }
        ensures number { result ≡ length (heap_of self.old) }
        ensures made { heap_of self.new ≡ heap_of self.old ++ record { kind = ArrayOf ty.now; cells = replicate len (cell_default ty.now) } ∷ [] }
        ensures most { self.new.most ≡ self.old.most }
    {
        let number = self.rows.len() as u32;
        let row = Row {
            kind: Kind::Array(ty),
            from: self.cells.len(),
            len,
        };
        push_copies(&mut self.cells, cell_default(ty), len);
        self.rows.push_reserved(row);
        number
    }

    /// A new array whose cells are what these slots hold; the answer is its number.
    pub fn make_list(&mut self, ty: &'p Type_, entries: &[u32], slots: &[Held]) -> u32
        requires { cells_used (heap_of self.old) + (length entries.now + 1) ≤ self.old.most }
        ensures number { result ≡ length (heap_of self.old) }
        ensures made { heap_of self.new ≡ heap_of self.old ++ record { kind = ArrayOf ty.now; cells = map (value_at (map held_of slots.now)) entries.now } ∷ [] }
        ensures most { self.new.most ≡ self.old.most }
    {
        let number = self.rows.len() as u32;
        let row = Row {
            kind: Kind::Array(ty),
            from: self.cells.len(),
            len: entries.len(),
        };
        push_picked(&mut self.cells, entries, slots);
        self.rows.push_reserved(row);
        number
    }

    /// A new object of a class with these fields, each of which holds its type's default; the answer is its number.
    pub fn make_object(&mut self, program: &Program, class: u32, fields: &[u32]) -> u32
        requires { cells_used (heap_of self.old) + (length fields.now + 1) ≤ self.old.most }
        ensures number { result ≡ length (heap_of self.old) }
        ensures made { heap_of self.new ≡ heap_of self.old ++ record { kind = ObjectOf class; cells = map (λ field. model.default_of (field_at program.now field).ty) fields.now } ∷ [] }
        ensures most { self.new.most ≡ self.old.most }
    {
        let number = self.rows.len() as u32;
        let row = Row {
            kind: Kind::Object(class),
            from: self.cells.len(),
            len: fields.len(),
        };
        push_defaults(&mut self.cells, program, fields);
        self.rows.push_reserved(row);
        number
    }

    /// A new array of these ints; the answer is its number.
    pub fn make_ints(&mut self, ty: &'p Type_, ns: &[i32]) -> u32
        requires { cells_used (heap_of self.old) + (length ns.now + 1) ≤ self.old.most }
        ensures number { result ≡ length (heap_of self.old) }
        ensures made { heap_of self.new ≡ heap_of self.old ++ record { kind = ArrayOf ty.now; cells = map Num ns.now } ∷ [] }
        ensures most { self.new.most ≡ self.old.most }
    {
        let number = self.rows.len() as u32;
        let row = Row {
            kind: Kind::Array(ty),
            from: self.cells.len(),
            len: ns.len(),
        };
        push_ints(&mut self.cells, ns);
        self.rows.push_reserved(row);
        number
    }
}

/// The row of that number.
fn row_at<'p>(rows: &[Row<'p>], number: u32) -> Option<Row<'p>>
    ensures { result ≡ slice_get rows.now number }
{
    rows.get(number as usize).copied()
}

/// An index as a place within a length.
fn place_within(index: i32, len: usize) -> Option<usize>
    ensures { record {
      within : IfSome result (λ place. (is_within index len ≡ true) × (place ≡ unsigned_abs index) × (place < len));
      outside : IfNone result (is_within index len ≡ false);
    } }
{
    if index < 0 {
        return None;
    }
    let place = index.unsigned_abs() as usize;
    if place < len { Some(place) } else { None }
}

/// Adds a value so many times.
fn push_copies(cells: &mut Vec<Held>, value: Held, count: usize)
    requires { vec_len cells.old + count ≤ vec_capacity cells.old }
    ensures { record {
      items : cells.new.items ≡ cells.old.items ++ replicate count value;
      room : vec_capacity cells.old ≤ vec_capacity cells.new;
    } }
{
    for done in 0..count {
        cells.push_reserved(value);
    }
}

/// What a slot holds; 0 where there is none.
fn value_in(slots: &[Held], slot: u32) -> Held
    ensures { held_of result ≡ value_at (map held_of slots.now) slot }
{
    match slots.get(slot as usize) {
        Some(value) => *value,
        None => Held::Int(0),
    }
}

/// Adds what these slots hold.
fn push_picked(cells: &mut Vec<Held>, entries: &[u32], slots: &[Held])
    requires { vec_len cells.old + length entries.now ≤ vec_capacity cells.old }
    ensures items { Added cells.old.items cells.new.items (map (value_at (map held_of slots.now)) entries.now) }
    ensures room { vec_capacity cells.old ≤ vec_capacity cells.new }
{
    for slot in entries {
        cells.push_reserved(value_in(slots, *slot));
    }
}

/// The default of a field's type.
fn field_default(program: &Program, field: u32) -> Held
    ensures { held_of result ≡ model.default_of (field_at program.now field).ty }
{
    match program.fields.as_slice().get(field as usize) {
        Some(found) => default_of(&found.ty),
        None => Held::Int(0),
    }
}

/// Adds the defaults of these fields' types.
fn push_defaults(cells: &mut Vec<Held>, program: &Program, fields: &[u32])
    requires { vec_len cells.old + length fields.now ≤ vec_capacity cells.old }
    ensures items { Added cells.old.items cells.new.items (map (λ field. model.default_of (field_at program.now field).ty) fields.now) }
    ensures room { vec_capacity cells.old ≤ vec_capacity cells.new }
{
    for field in fields {
        cells.push_reserved(field_default(program, *field));
    }
}

/// Adds ints.
fn push_ints(cells: &mut Vec<Held>, ns: &[i32])
    requires { vec_len cells.old + length ns.now ≤ vec_capacity cells.old }
    ensures items { Added cells.old.items cells.new.items (map Num ns.now) }
    ensures room { vec_capacity cells.old ≤ vec_capacity cells.new }
{
    for n in ns {
        cells.push_reserved(Held::Int(*n));
    }
}
