//! Marks of near paths that stand in a set, so that no place is sought for them again.

ghost use Rattle.std.specs.Prelude.{◌≡◌, ◌⊎◌, ◌<◌, ℕ, true, false, get_or, length, IsTrue, OnOk};
ghost use Rattle.std.specs.Int.{bit_at};
ghost use Rattle.ix_core.specs.declared.fact.Path.{Path};
ghost use Rattle.ix_fact_paths.specs.Marks.{IsInWords, IsAtPlace, IsMarked};

use crate::by_slot::{PLACES, near_place};
use ix_core::Path;
use std::alloc::{AllocError, Global};

/// How many paths are left without marks that take memory: to seek these again costs less.
const FEW: usize = 8;

/// How many places are marked at first; where those are too few, there is room for all.
const MANY: usize = 256;

static MANY_UNMARKED: [bool; MANY] = [false; MANY];

static ALL_UNMARKED: [bool; PLACES] = [false; PLACES];

/// Slots below 64, and fields below 64 of the object in slot 0, have a bit each, which takes no memory; the other near paths have marks by their places.
#[derive(Drop)]
pub(crate) struct Marks {
    slots: u64,
    fields: u64,
    far: Vec<bool>,
    /// How many paths more are left without marks.
    unmarked: usize,
}

#[inline]
fn has_bit(word: u64, number: u32) -> bool
    ensures { IsTrue result → bit_at word number ≡ 1 }
{
    number < 64 && (word >> number) & 1 == 1
}

fn set_bit(word: &mut u64, number: u32)
    requires low { number < 64 }
    ensures { (i : ℕ) → bit_at word.new i ≡ 1 → (bit_at word.old i ≡ 1) ⊎ (i ≡ number) }
{
    *word |= 1 << number;
}

#[inline]
fn is_in_words(slots: u64, fields: u64, p: &Path) -> bool
    ensures { IsTrue result → IsInWords slots fields p.now }
{
    match *p {
        Path::Slot(slot) => has_bit(slots, slot),
        Path::FieldOf(slot, field) => slot == 0 && has_bit(fields, field),
    }
}

/// Sets the path's bit, and tells whether it has one.
fn put_in_words(slots: &mut u64, fields: &mut u64, p: &Path) -> bool
    ensures { (q : Path) → IsInWords slots.new fields.new q → IsInWords slots.old fields.old q ⊎ (q ≡ p.now) }
{
    match *p {
        Path::Slot(slot) => {
            if slot >= 64 {
                return false;
            }
            set_bit(slots, slot);
            true
        }
        Path::FieldOf(slot, field) => {
            if slot != 0 || field >= 64 {
                return false;
            }
            set_bit(fields, field);
            true
        }
    }
}

fn mark_at(marks: &[bool], place: usize) -> bool
    ensures { result ≡ get_or marks.now place false }
{
    match marks.get(place) {
        Some(mark) => *mark,
        None => false,
    }
}

// What is no near path has a place past all marks: that it is near needs no look.
fn is_at_place(marks: &[bool], p: &Path) -> bool
    ensures { IsTrue result → IsAtPlace marks.now p.now }
{
    match *p {
        Path::Slot(slot) => mark_at(marks, 2 * slot as usize),
        Path::FieldOf(slot, field) => slot == 0 && mark_at(marks, 2 * field as usize + 1),
    }
}

/// Makes room for the place, and for others at once.
fn reach(marks: &mut Vec<bool>, place: usize) -> Result<(), AllocError>
    requires near { place < 2048 }
    ensures reached { OnOk result (place < length marks.new.items) }
    ensures same { (at : ℕ) → get_or marks.new.items at false ≡ get_or marks.old.items at false }
{
    if place < marks.len() {
        return Ok(());
    }
    if place < MANY {
        return marks.extend_from_slice(&MANY_UNMARKED);
    }
    marks.extend_from_slice(&ALL_UNMARKED)
}

fn mark_place(marks: &mut Vec<bool>, place: usize) -> Result<(), AllocError>
    requires near { place < 2048 }
    ensures { (at : ℕ) → get_or marks.new.items at false ≡ true → (get_or marks.old.items at false ≡ true) ⊎ (at ≡ place) }
{
    reach(marks, place)?;
    marks[place] = true;
    Ok(())
}

/// Marks the path by its place, where it is a near one.
fn mark_far(marks: &mut Vec<bool>, p: &Path) -> Result<(), AllocError>
    ensures { (q : Path) → IsAtPlace marks.new.items q → IsAtPlace marks.old.items q ⊎ (q ≡ p.now) }
{
    match near_place(p) {
        Some(place) => mark_place(marks, place),
        None => Ok(()),
    }
}

impl Marks {
    /// No marks. It takes no memory.
    pub(crate) fn new(alloc: Global) -> Marks
        ensures { (p : Path) → IsMarked result p → ⊥ }
    {
        Marks {
            slots: 0,
            fields: 0,
            far: Vec::new(alloc),
            unmarked: FEW,
        }
    }

    /// Whether the path's bit is set. It takes no memory.
    #[inline]
    pub(crate) fn has(&self, p: &Path) -> bool
        ensures { IsTrue result → IsMarked self.now p.now }
    {
        is_in_words(self.slots, self.fields, p)
    }

    /// Whether the path is marked by its place. It takes no memory.
    pub(crate) fn has_far(&self, p: &Path) -> bool
        ensures { IsTrue result → IsMarked self.now p.now }
    {
        is_at_place(&self.far, p)
    }

    /// Marks the path, where it is a near one and that takes no memory, or many were put before.
    pub(crate) fn put(&mut self, p: &Path) -> Result<(), AllocError>
        ensures { (q : Path) → IsMarked self.new q → IsMarked self.old q ⊎ (q ≡ p.now) }
    {
        if put_in_words(&mut self.slots, &mut self.fields, p) {
            return Ok(());
        }
        if self.unmarked > 0 {
            self.unmarked -= 1;
            return Ok(());
        }
        mark_far(&mut self.far, p)
    }
}
