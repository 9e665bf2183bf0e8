//! What each near int is at least and at most, by two passes over facts.

ghost use Rattle.std.specs.Prelude.{◌≡◌, ◌<◌, ◌≤◌, ◌+ℤ◌, ◌-ℤ◌, ℕ, pos, true, false, All, Some, get_or, length, take, nat_eq, IfOk, OnOk, IfSome, IfNone};
ghost use Rattle.ix_core.specs.declared.fact.Fact.TheVariants.{Less};
ghost use Rattle.ix_num.specs.Ints.{least_int, greatest_int};
ghost use Rattle.ix_facts.specs.Bounds as spec;
ghost use Rattle.ix_facts.specs.Bounds.{at_least, at_most, is_path, when};
ghost use Rattle.ix_facts.specs.Small.{HasSmallNumbers, IsEnd, IsLimit};
ghost use Rattle.ix_bounds.specs.Ends.{ends_in};
ghost use Rattle.ix_fact_paths.specs.ByPath.{is_near};
ghost use Rattle.ix_fact_list.specs.NearNumbers.{number_at, told, Raises, Lowers, AreLimits, HasEnds, HasLimits};

use ix_bounds::{self, Groups, past, short_of, within};
use ix_core::{Fact, Path, PathOff};
use ix_fact_paths::{PLACES, near_place};
use std::alloc::{AllocError, Global};

/// The least int.
const LEAST: i64 = -2147483648;

/// The greatest int.
const GREATEST: i64 = 2147483647;

/// How many places there are up to this path's, where it is a near one, and at least so many. It is for speed alone.
fn room_with(p: &Path, room: usize) -> usize
    requires near { room ≤ 2048 }
    ensures near { result ≤ 2048 }
{
    match near_place(p) {
        Some(place) => room.max(place + 1),
        None => room,
    }
}

/// How many places there are up to that of the last near path. It is for speed alone.
pub(crate) fn room_of(paths: &[Path]) -> usize
    ensures near { result ≤ 2048 }
{
    let mut room = 0;
    for p in paths {
        room = room_with(p, room);
    }
    room
}

/// Makes room for the place.
#[inline(never)]
fn reach(numbers: &mut Vec<i64>, default: i64, place: usize) -> Result<(), AllocError>
    requires near { place < 2048 }
    ensures { record {
      reached : OnOk result (place < length numbers.new.items);
      same : OnOk result ((at : ℕ) → get_or numbers.new.items at default ≡ get_or numbers.old.items at default);
    } }
{
    if place < numbers.len() {
        return Ok(());
    }
    numbers.resize(place + 1, default)
}

fn number_in(numbers: &[i64], default: i64, place: usize) -> i64
    ensures { result ≡ get_or numbers.now place default }
{
    match numbers.get(place) {
        Some(n) => *n,
        None => default,
    }
}

/// How many numbers stand ready to be copied, which takes less than to write one by one.
const READY: usize = 128;

const LEASTS: [i64; READY] = [LEAST; READY];

const GREATESTS: [i64; READY] = [GREATEST; READY];

const ZEROS: [i64; READY] = [0; READY];

/// No number yet, with room for so many.
fn no_numbers(
    alloc: Global,
    default: i64,
    ready: &[i64],
    room: usize,
) -> Result<Vec<i64>, AllocError>
    requires near { room ≤ 2048 }
    requires ready { (at : ℕ) → get_or ready.now at default ≡ default }
    ensures { IfOk result (λ numbers. (at : ℕ) → get_or numbers.items at default ≡ default) }
{
    if room <= ready.len() {
        let (numbers, _) = ready.split_at(room);
        return Vec::from_slice(alloc, numbers);
    }
    let mut numbers = Vec::new(alloc);
    reach(&mut numbers, default, room - 1)?;
    Ok(numbers)
}

/// The numbers at the places of near paths.
fn near_numbers(alloc: Global, numbers: &[i64]) -> Result<Vec<i64>, AllocError>
    ensures { IfOk result (λ near. near.items ≡ take 2048 numbers.now) }
{
    if numbers.len() <= PLACES {
        return Vec::from_slice(alloc, numbers);
    }
    let (near, _) = numbers.split_at(PLACES);
    Vec::from_slice(alloc, near)
}

/// Raises the number at the place, where there is no room for it.
#[inline(never)]
fn raise_beyond(
    numbers: &mut Vec<i64>,
    default: i64,
    place: usize,
    low: i64,
) -> Result<(), AllocError>
    requires near { place < 2048 }
    ensures { OnOk result ((at : ℕ) → get_or numbers.new.items at default ≡ at_least (get_or numbers.old.items at default) (when (nat_eq place at) (Some low))) }
{
    reach(numbers, default, place)?;
    let raised = number_in(numbers, default, place).max(low);
    numbers[place] = raised;
    Ok(())
}

/// Raises the number at the place. Mostly there is room for it.
#[inline]
fn raise_at(numbers: &mut Vec<i64>, default: i64, place: usize, low: i64) -> Result<(), AllocError>
    requires near { place < 2048 }
    ensures { OnOk result ((at : ℕ) → get_or numbers.new.items at default ≡ at_least (get_or numbers.old.items at default) (when (nat_eq place at) (Some low))) }
{
    if place >= numbers.len() {
        return raise_beyond(numbers, default, place, low);
    }
    let raised = number_in(numbers, default, place).max(low);
    numbers[place] = raised;
    Ok(())
}

/// Lowers the number at the place, where there is no room for it.
#[inline(never)]
fn lower_beyond(
    numbers: &mut Vec<i64>,
    default: i64,
    place: usize,
    high: i64,
) -> Result<(), AllocError>
    requires near { place < 2048 }
    ensures { OnOk result ((at : ℕ) → get_or numbers.new.items at default ≡ at_most (get_or numbers.old.items at default) (when (nat_eq place at) (Some high))) }
{
    reach(numbers, default, place)?;
    let lowered = number_in(numbers, default, place).min(high);
    numbers[place] = lowered;
    Ok(())
}

/// Lowers the number at the place.
#[inline]
fn lower_at(numbers: &mut Vec<i64>, default: i64, place: usize, high: i64) -> Result<(), AllocError>
    requires near { place < 2048 }
    ensures { OnOk result ((at : ℕ) → get_or numbers.new.items at default ≡ at_most (get_or numbers.old.items at default) (when (nat_eq place at) (Some high))) }
{
    if place >= numbers.len() {
        return lower_beyond(numbers, default, place, high);
    }
    let lowered = number_in(numbers, default, place).min(high);
    numbers[place] = lowered;
    Ok(())
}

/// Raises the number of the path to this one, where it is a near path.
fn raise(numbers: &mut Vec<i64>, default: i64, p: &Path, low: i64) -> Result<(), AllocError>
    ensures raised { OnOk result (Raises numbers.old.items numbers.new.items default (λ q. when (is_path p.now q) (Some low))) }
    ensures small { OnOk result (IsLimit low → AreLimits numbers.old.items default → AreLimits numbers.new.items default) }
{
    match near_place(p) {
        Some(place) => raise_at(numbers, default, place, low),
        None => Ok(()),
    }
}

/// Lowers it.
fn lower(numbers: &mut Vec<i64>, default: i64, p: &Path, high: i64) -> Result<(), AllocError>
    ensures lowered { OnOk result (Lowers numbers.old.items numbers.new.items default (λ q. when (is_path p.now q) (Some high))) }
    ensures small { OnOk result (IsLimit high → AreLimits numbers.old.items default → AreLimits numbers.new.items default) }
{
    match near_place(p) {
        Some(place) => lower_at(numbers, default, place, high),
        None => Ok(()),
    }
}

/// Raises the low end of the path's range and lowers the high end, where it is a near path.
fn put_range(
    lows: &mut Vec<i64>,
    default: i64,
    highs: &mut Vec<i64>,
    p: &Path,
    low: i64,
    high: i64,
) -> Result<(), AllocError>
    ensures raised { OnOk result (Raises lows.old.items lows.new.items default (λ q. when (is_path p.now q) (Some low))) }
    ensures lowered { OnOk result (Lowers highs.old.items highs.new.items greatest_int (λ q. when (is_path p.now q) (Some high))) }
{
    match near_place(p) {
        Some(place) => {
            raise_at(lows, default, place, low)?;
            lower_at(highs, GREATEST, place, high)
        }
        None => Ok(()),
    }
}

/// The number of the path, where it is a near path.
fn number_of(numbers: &[i64], default: i64, p: &Path) -> Option<i64>
    ensures { record {
      near : IfSome result (λ _n. is_near p.now ≡ true);
      number : IfSome result (λ n. n ≡ number_at numbers.now default p.now);
      none : IfNone result (is_near p.now ≡ false);
    } }
{
    match near_place(p) {
        Some(place) => Some(number_in(numbers, default, place)),
        None => None,
    }
}

/// The ends of the ranges of near paths.
#[derive(Drop)]
pub(crate) struct NearEnds {
    pub(crate) lows: Vec<i64>,
    pub(crate) highs: Vec<i64>,
    pub(crate) length_lows: Vec<i64>,
    pub(crate) length_highs: Vec<i64>,
}

/// What each near int is at least and at most.
#[derive(Drop)]
pub struct Limits {
    pub(crate) lows: Vec<i64>,
    pub(crate) highs: Vec<i64>,
}

impl NearEnds {
    /// Counts the fact in.
    fn put(&mut self, fact: &Fact) -> Result<(), AllocError>
        ensures { record {
          lows : OnOk result (Raises self.old.lows.items self.new.lows.items least_int (λ p. spec.range_low_by p fact.now));
          highs : OnOk result (Lowers self.old.highs.items self.new.highs.items greatest_int (λ p. spec.range_high_by p fact.now));
          length_lows : OnOk result (Raises self.old.length_lows.items self.new.length_lows.items (pos 0) (λ p. spec.length_low_by p fact.now));
          length_highs : OnOk result (Lowers self.old.length_highs.items self.new.length_highs.items greatest_int (λ p. spec.length_high_by p fact.now));
        } }
    {
        match *fact {
            Fact::Rng(p, low, high) => {
                put_range(&mut self.lows, LEAST, &mut self.highs, &p, low, high)
            }
            Fact::LenRng(a, low, high) => {
                put_range(
                    &mut self.length_lows,
                    0,
                    &mut self.length_highs,
                    &a,
                    low,
                    high,
                )
            }
            Fact::Low(p, low) => raise(&mut self.lows, LEAST, &p, low as i64),
            _ => Ok(()),
        }
    }

    /// By all ranges and classes, with room for the places of ints and of arrays.
    pub(crate) fn of(
        alloc: Global,
        facts: &[Fact],
        ints: usize,
        arrays: usize,
    ) -> Result<NearEnds, AllocError>
        requires ints { ints ≤ 2048 }
        requires arrays { arrays ≤ 2048 }
        ensures { IfOk result (HasEnds facts.now) }
    {
        let lows = no_numbers(alloc, LEAST, &LEASTS, ints)?;
        let highs = no_numbers(alloc, GREATEST, &GREATESTS, ints)?;
        let length_lows = no_numbers(alloc, 0, &ZEROS, arrays)?;
        let length_highs = no_numbers(alloc, GREATEST, &GREATESTS, arrays)?;
        let mut ends = NearEnds {
            lows,
            highs,
            length_lows,
            length_highs,
        };
        for fact in facts {
            ends.put(fact)?;
        }
        Ok(ends)
    }

    fn low<G: Groups>(&self, facts: &G, p: &Path) -> i64
        requires { record {
          ends : HasEnds (G.all facts.now) self.now;
          small : All HasSmallNumbers (G.all facts.now);
        } }
        ensures value { result ≡ spec.range_low (G.all facts.now) p.now }
        ensures small { IsEnd result }
    {
        match number_of(&self.lows, LEAST, p) {
            Some(low) => low,
            None => ix_bounds::range_low(facts, p),
        }
    }

    fn high<G: Groups>(&self, facts: &G, p: &Path) -> i64
        requires { record {
          ends : HasEnds (G.all facts.now) self.now;
          small : All HasSmallNumbers (G.all facts.now);
        } }
        ensures value { result ≡ spec.range_high (G.all facts.now) p.now }
        ensures small { IsEnd result }
    {
        match number_of(&self.highs, GREATEST, p) {
            Some(high) => high,
            None => ix_bounds::range_high(facts, p),
        }
    }

    fn length_low<G: Groups>(&self, facts: &G, a: &Path) -> i64
        requires { record {
          ends : HasEnds (G.all facts.now) self.now;
          small : All HasSmallNumbers (G.all facts.now);
        } }
        ensures value { result ≡ spec.length_low (G.all facts.now) a.now }
        ensures small { IsEnd result }
    {
        match number_of(&self.length_lows, 0, a) {
            Some(low) => low,
            None => ix_bounds::length_low(facts, a),
        }
    }

    fn length_high<G: Groups>(&self, facts: &G, a: &Path) -> i64
        requires { record {
          ends : HasEnds (G.all facts.now) self.now;
          small : All HasSmallNumbers (G.all facts.now);
        } }
        ensures value { result ≡ spec.length_high (G.all facts.now) a.now }
        ensures small { IsEnd result }
    {
        match number_of(&self.length_highs, GREATEST, a) {
            Some(high) => high,
            None => ix_bounds::length_high(facts, a),
        }
    }
}

/// The int that the fact bounds from below by what another int or a length is at least, and by which number.
fn low_told<G: Groups>(ends: &NearEnds, facts: &G, fact: &Fact) -> Option<(Path, i64)>
    requires { record {
      ends : HasEnds (G.all facts.now) ends.now;
      small : All HasSmallNumbers (G.all facts.now);
      fact : HasSmallNumbers fact.now;
    } }
    ensures low { (p : Path) → told result p ≡ spec.lower_by (G.all facts.now) p fact.now }
    ensures small { IfSome result (λ low. IsLimit low.1) }
{
    match *fact {
        Fact::Less(q, r, c) => Some((r, past(ends.low(facts, &q), c as i64))),
        Fact::IsLen(r, a) => Some((r, ends.length_low(facts, &a))),
        _ => None,
    }
}

/// The int that the fact bounds from above by what another int or a length is at most, and by which number.
fn high_told<G: Groups>(ends: &NearEnds, facts: &G, fact: &Fact) -> Option<(Path, i64)>
    requires { record {
      ends : HasEnds (G.all facts.now) ends.now;
      small : All HasSmallNumbers (G.all facts.now);
      fact : HasSmallNumbers fact.now;
    } }
    ensures high { (p : Path) → told result p ≡ spec.limit_by (G.all facts.now) p fact.now }
    ensures small { IfSome result (λ high. IsLimit high.1) }
{
    match *fact {
        Fact::Less(q, r, c) => Some((q, short_of(ends.high(facts, &r), c as i64))),
        Fact::Upper(r, a, PathOff::Nothing, c) => {
            Some((r, within(ends.length_high(facts, &a), c as i64)))
        }
        Fact::IsLen(r, a) => Some((r, ends.length_high(facts, &a))),
        _ => None,
    }
}

/// Raises the number of the int that the fact bounds from below.
fn put_low<G: Groups>(
    lows: &mut Vec<i64>,
    ends: &NearEnds,
    facts: &G,
    fact: &Fact,
) -> Result<(), AllocError>
    requires { record {
      ends : HasEnds (G.all facts.now) ends.now;
      small : All HasSmallNumbers (G.all facts.now);
      fact : HasSmallNumbers fact.now;
    } }
    ensures raised { OnOk result (Raises lows.old.items lows.new.items least_int (λ p. spec.lower_by (G.all facts.now) p fact.now)) }
    ensures small { OnOk result (AreLimits lows.old.items least_int → AreLimits lows.new.items least_int) }
{
    match low_told(ends, facts, fact) {
        Some((p, low)) => raise(lows, LEAST, &p, low),
        None => Ok(()),
    }
}

/// Lowers the number of the int that the fact bounds from above.
fn put_high<G: Groups>(
    highs: &mut Vec<i64>,
    ends: &NearEnds,
    facts: &G,
    fact: &Fact,
) -> Result<(), AllocError>
    requires { record {
      ends : HasEnds (G.all facts.now) ends.now;
      small : All HasSmallNumbers (G.all facts.now);
      fact : HasSmallNumbers fact.now;
    } }
    ensures lowered { OnOk result (Lowers highs.old.items highs.new.items greatest_int (λ p. spec.limit_by (G.all facts.now) p fact.now)) }
    ensures small { OnOk result (AreLimits highs.old.items greatest_int → AreLimits highs.new.items greatest_int) }
{
    match high_told(ends, facts, fact) {
        Some((p, high)) => lower(highs, GREATEST, &p, high),
        None => Ok(()),
    }
}

/// Raises and lowers the numbers of the ints that the fact bounds.
#[inline(never)]
fn put_each<G: Groups>(
    lows: &mut Vec<i64>,
    highs: &mut Vec<i64>,
    ends: &NearEnds,
    facts: &G,
    fact: &Fact,
) -> Result<(), AllocError>
    requires { record {
      ends : HasEnds (G.all facts.now) ends.now;
      small : All HasSmallNumbers (G.all facts.now);
      fact : HasSmallNumbers fact.now;
    } }
    ensures { record {
      raised : OnOk result (Raises lows.old.items lows.new.items least_int (λ p. spec.lower_by (G.all facts.now) p fact.now));
      lowered : OnOk result (Lowers highs.old.items highs.new.items greatest_int (λ p. spec.limit_by (G.all facts.now) p fact.now));
      small_lows : OnOk result (AreLimits lows.old.items least_int → AreLimits lows.new.items least_int);
      small_highs : OnOk result (AreLimits highs.old.items greatest_int → AreLimits highs.new.items greatest_int);
    } }
{
    put_low(lows, ends, facts, fact).and(put_high(highs, ends, facts, fact))
}

/// Raises and lowers the numbers at the places of two ints, of which the one is less than the other and c.
#[inline]
fn put_apart(
    lows: &mut Vec<i64>,
    highs: &mut Vec<i64>,
    ends: &NearEnds,
    small: usize,
    great: usize,
    c: i32,
) -> Result<(), AllocError>
    requires small { small < 2048 }
    requires great { great < 2048 }
    requires low { IsEnd (get_or ends.now.lows.items small least_int) }
    requires high { IsEnd (get_or ends.now.highs.items great greatest_int) }
    ensures raised { OnOk result ((at : ℕ) → get_or lows.new.items at least_int ≡ at_least (get_or lows.old.items at least_int) (when (nat_eq great at) (Some (get_or ends.now.lows.items small least_int -ℤ c +ℤ pos 1)))) }
    ensures lowered { OnOk result ((at : ℕ) → get_or highs.new.items at greatest_int ≡ at_most (get_or highs.old.items at greatest_int) (when (nat_eq small at) (Some (get_or ends.now.highs.items great greatest_int +ℤ c -ℤ pos 1)))) }
    ensures small_lows { OnOk result (AreLimits lows.old.items least_int → AreLimits lows.new.items least_int) }
    ensures small_highs { OnOk result (AreLimits highs.old.items greatest_int → AreLimits highs.new.items greatest_int) }
{
    let c = c as i64;
    let low = past(number_in(&ends.lows, LEAST, small), c);
    raise_at(lows, LEAST, great, low)?;
    let high = short_of(number_in(&ends.highs, GREATEST, great), c);
    lower_at(highs, GREATEST, small, high)
}

/// The same, where the fact is a difference of two ints. Mostly both are near.
#[inline]
fn put_less<G: Groups>(
    lows: &mut Vec<i64>,
    highs: &mut Vec<i64>,
    ends: &NearEnds,
    facts: &G,
    fact: &Fact,
    q: &Path,
    r: &Path,
    c: i32,
) -> Result<(), AllocError>
    requires { record {
      ends : HasEnds (G.all facts.now) ends.now;
      small : All HasSmallNumbers (G.all facts.now);
      less : fact.now ≡ Less q.now r.now c;
      fact : HasSmallNumbers fact.now;
    } }
    ensures raised { OnOk result (Raises lows.old.items lows.new.items least_int (λ p. spec.lower_by (G.all facts.now) p fact.now)) }
    ensures lowered { OnOk result (Lowers highs.old.items highs.new.items greatest_int (λ p. spec.limit_by (G.all facts.now) p fact.now)) }
    ensures small_lows { OnOk result (AreLimits lows.old.items least_int → AreLimits lows.new.items least_int) }
    ensures small_highs { OnOk result (AreLimits highs.old.items greatest_int → AreLimits highs.new.items greatest_int) }
{
    match (near_place(q), near_place(r)) {
        (Some(small), Some(great)) => put_apart(lows, highs, ends, small, great, c),
        _ => put_each(lows, highs, ends, facts, fact),
    }
}

/// The same. Most facts are differences; ranges and classes are in the ends already.
#[inline]
fn put<G: Groups>(
    lows: &mut Vec<i64>,
    highs: &mut Vec<i64>,
    ends: &NearEnds,
    facts: &G,
    fact: &Fact,
) -> Result<(), AllocError>
    requires { record {
      ends : HasEnds (G.all facts.now) ends.now;
      small : All HasSmallNumbers (G.all facts.now);
      fact : HasSmallNumbers fact.now;
    } }
    ensures { record {
      raised : OnOk result (Raises lows.old.items lows.new.items least_int (λ p. spec.lower_by (G.all facts.now) p fact.now));
      lowered : OnOk result (Lowers highs.old.items highs.new.items greatest_int (λ p. spec.limit_by (G.all facts.now) p fact.now));
      small_lows : OnOk result (AreLimits lows.old.items least_int → AreLimits lows.new.items least_int);
      small_highs : OnOk result (AreLimits highs.old.items greatest_int → AreLimits highs.new.items greatest_int);
    } }
{
    match fact {
        Fact::Less(q, r, c) => put_less(lows, highs, ends, facts, fact, q, r, *c),
        Fact::IsLen(_, _) => put_each(lows, highs, ends, facts, fact),
        Fact::Upper(_, _, _, _) => put_each(lows, highs, ends, facts, fact),
        _ => Ok(()),
    }
}

impl Limits {
    /// By all facts in all their orders: what they give beside the ends of ranges. The only error is want of memory.
    pub(crate) fn of<G: Groups>(
        alloc: Global,
        groups: &G,
        ends: &NearEnds,
        facts: &[Fact],
    ) -> Result<Limits, AllocError>
        requires all { G.all groups.now ≡ facts.now }
        requires ends { HasEnds facts.now ends.now }
        requires small { All HasSmallNumbers facts.now }
        ensures limits { IfOk result (HasLimits facts.now) }
    {
        let mut lows = near_numbers(alloc, &ends.lows)?;
        let mut highs = near_numbers(alloc, &ends.highs)?;
        for fact in facts {
            put(&mut lows, &mut highs, ends, groups, fact)?;
        }
        Ok(Limits { lows, highs })
    }

    /// The same, where a part of the facts has all ranges and classes. It asks for room once, for these ints and arrays.
    pub fn by_part<G: Groups>(
        alloc: Global,
        groups: &G,
        facts: &[Fact],
        part: &[Fact],
        ints: &[Path],
        arrays: &[Path],
    ) -> Result<Limits, AllocError>
        requires all { G.all groups.now ≡ facts.now }
        requires part { ends_in part.now ≡ ends_in facts.now }
        requires small { All HasSmallNumbers facts.now }
        ensures limits { IfOk result (HasLimits facts.now) }
    {
        let ends = NearEnds::of(alloc, part, room_of(ints), room_of(arrays))?;
        Limits::of(alloc, groups, &ends, facts)
    }

    /// What the int is at least, where its path is a near one.
    pub fn low(&self, p: &Path) -> Option<i64>
        ensures near { IfSome result (λ _low. is_near p.now ≡ true) }
        ensures low { IfSome result (λ low. low ≡ number_at self.now.lows.items least_int p.now) }
        ensures none { IfNone result (is_near p.now ≡ false) }
    {
        number_of(&self.lows, LEAST, p)
    }

    /// What it is at most.
    pub fn high(&self, p: &Path) -> Option<i64>
        ensures near { IfSome result (λ _high. is_near p.now ≡ true) }
        ensures high { IfSome result (λ high. high ≡ number_at self.now.highs.items greatest_int p.now) }
        ensures none { IfNone result (is_near p.now ≡ false) }
    {
        number_of(&self.highs, GREATEST, p)
    }
}
