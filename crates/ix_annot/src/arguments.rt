//! What an annotation claims, with the names as they are written.

ghost use Rattle.std.specs.Prelude.{◌≡◌, ◌||◌, [], false, bytes_eq, codes, option_map, drop, IfOk};
ghost use Rattle.std.specs.Str.{chars};
ghost use Rattle.ix_annot.specs.Texts.{array_text};
ghost use Rattle.ix_annot.specs.Table as table;
ghost use Rattle.ix_annot.specs.Table.{arg_name};
ghost use Rattle.ix_annot.specs.Arguments as spec;

use crate::table::{EachArray, Says, argument};
use crate::texts::{Naming, Offset, array_text, bound_text, offset_text};
use ix_core::Claim;
use ix_text::{List, Text};
use ix_tree::{AnnotArg, AnnotValue};
use std::alloc::{AllocError, Global};

/// A claim that names variables, as it is written.
#[derive(Drop)]
pub enum Written {
    OfArray(EachArray, Naming),
    /// `v + offset < array.length`
    Upper(Naming, Offset),
    /// `v < variable + constant`
    Less(Naming, i32),
}

/// What an annotation claims, as it is written.
#[derive(Drop)]
pub struct Plan {
    /// The claims that name nothing; they come first.
    pub first: List<Claim>,
    pub written: List<Written>,
    pub effect_free: bool,
    /// Where the claims aren't of what the annotation stands on, but promised of others.
    pub promise: Option<Promise>,
}

/// What a method promises claims of where it returns: always, or where it returns this answer.
#[derive(Drop)]
pub struct Promise {
    pub when: Option<bool>,
    pub on: List<Naming>,
}

fn is_either(name: &str, one: &str, other: &str) -> bool
    ensures { result ≡ (bytes_eq name.now one.now || bytes_eq name.now other.now) }
{
    name == one || name == other
}

fn takes(says: Says, name: &str) -> bool
    ensures { result ≡ spec.takes says name.now }
{
    match says {
        Says::Between => is_either(name, "from", "to"),
        Says::Offsets => is_either(name, "value", "offset"),
        Says::LengthAtLeast | Says::Arrays(_, _) | Says::Bounds => name == "value",
        Says::Ensures => name == "value" || is_either(name, "targetValue", "offset"),
        Says::EnsuresIf => {
            name == "expression" || name == "result" || is_either(name, "targetValue", "offset")
        }
        Says::Nothing | Says::EffectFree | Says::AtLeast(_) => false,
    }
}

fn name_of(arg: &AnnotArg) -> &str
    ensures { result.now ≡ arg_name arg.now.name }
{
    match &arg.name {
        None => "value",
        Some(name) => name.text.as_str(),
    }
}

/// Whether each argument is one that the annotation takes, and none has the name of another.
fn are_taken(says: Says, mut args: &[AnnotArg]) -> bool
    ensures { result ≡ spec.are_taken says args.entry.now }
{
    while let [arg, others @ ..] = args {
        let name = name_of(arg);
        if !takes(says, name) || argument(name, others).is_some() {
            return false;
        }
        args = others;
    }
    true
}

/// The int of an argument, where a missing one stands for `otherwise`; none where it is no int.
fn int_or(otherwise: i32, value: Option<&AnnotValue>) -> Option<i32>
    ensures { result ≡ spec.int_or otherwise (option_map (λ value. value.now) value.entry) }
{
    match value {
        None => Some(otherwise),
        Some(AnnotValue::Number(n)) => {
            if -2_147_483_648 <= *n && *n <= 2_147_483_647 {
                Some(*n as i32)
            } else {
                None
            }
        }
        Some(_) => None,
    }
}

fn range_of(args: &[AnnotArg]) -> Option<Claim>
    ensures { result ≡ spec.range_of args.now }
{
    let low = int_or(i32::MIN, argument("from", args))?;
    let high = int_or(i32::MAX, argument("to", args))?;
    if low <= high {
        Some(Claim::Range(low, high))
    } else {
        None
    }
}

fn length_of(args: &[AnnotArg]) -> Option<Claim>
    ensures { result ≡ spec.length_of args.now }
{
    let least = int_or(0, argument("value", args))?;
    if 0 <= least {
        Some(Claim::Length(least))
    } else {
        None
    }
}

fn texts(value: Option<&AnnotValue>) -> Option<&[Text]>
    ensures { option_map (λ texts. texts.now) result ≡ spec.texts (option_map (λ value. value.now) value.entry) }
{
    match value {
        Some(AnnotValue::Texts(entries)) => Some(entries.as_slice()),
        _ => None,
    }
}

fn texts_or_none(value: Option<&AnnotValue>) -> Option<&[Text]>
    ensures { option_map (λ texts. texts.now) result ≡ spec.texts_or_none (option_map (λ value. value.now) value.entry) }
{
    match value {
        None => Some(&[]),
        Some(_) => texts(value),
    }
}

fn first_offset(alloc: Global, offsets: &[Text]) -> Result<Option<Offset>, AllocError>
    ensures { IfOk result (λ offset. offset ≡ spec.first_offset offsets.now) }
{
    match offsets {
        [] => Ok(Some(Offset::Constant(0))),
        [offset, ..] => offset_text(alloc, offset),
    }
}

fn upper_written(
    alloc: Global,
    entry: &Text,
    offsets: &[Text],
) -> Result<Option<Written>, AllocError>
    ensures { IfOk result (λ written. written ≡ spec.upper (array_text (chars entry.now)) (spec.first_offset offsets.now)) }
{
    let Some(array) = array_text(alloc, entry)? else {
        return Ok(None);
    };
    match first_offset(alloc, offsets)? {
        None => Ok(None),
        Some(offset) => Ok(Some(Written::Upper(array, offset))),
    }
}

fn one_written(
    alloc: Global,
    says: Says,
    entry: &Text,
    offsets: &[Text],
) -> Result<Option<Written>, AllocError>
    ensures { IfOk result (λ written. written ≡ spec.written says entry.now offsets.now) }
{
    match says {
        Says::Arrays(_, each) => match array_text(alloc, entry)? {
            None => Ok(None),
            Some(array) => Ok(Some(Written::OfArray(each, array))),
        },
        Says::Offsets | Says::Ensures | Says::EnsuresIf => upper_written(alloc, entry, offsets),
        _ => match bound_text(alloc, entry)? {
            None => Ok(None),
            Some((naming, c)) => Ok(Some(Written::Less(naming, c))),
        },
    }
}

fn behind_first(texts: &[Text]) -> &[Text]
    ensures { result.now ≡ drop 1 texts.now }
{
    match texts {
        [] => &[],
        [_, others @ ..] => others,
    }
}

#[tactic(auto, using(crate::proofs::WithOthers::one_more))]
fn all_written(
    alloc: Global,
    says: Says,
    mut entries: &[Text],
    mut offsets: &[Text],
) -> Result<Option<List<Written>>, AllocError>
    ensures { IfOk result (λ written. written ≡ spec.all_written says entries.entry.now offsets.entry.now) }
{
    let mut all = List::new(alloc);
    while let [entry, others @ ..] = entries {
        let Some(written) = one_written(alloc, says, entry, offsets)? else {
            return Ok(None);
        };
        all.push(written)?;
        entries = others;
        offsets = behind_first(offsets);
    }
    Ok(Some(all))
}

/// The name of the argument that lists the arrays or the bounds.
fn listed_in(says: Says) -> &'static str
    ensures { result.now ≡ spec.listed_in says }
{
    match says {
        Says::Ensures | Says::EnsuresIf => "targetValue",
        _ => "value",
    }
}

fn claims_written(
    alloc: Global,
    says: Says,
    args: &[AnnotArg],
) -> Result<Option<List<Written>>, AllocError>
    ensures { IfOk result (λ written. written ≡ spec.claims_written says args.now) }
{
    let Some(entries) = texts(argument(listed_in(says), args)) else {
        return Ok(None);
    };
    let Some(offsets) = texts_or_none(argument("offset", args)) else {
        return Ok(None);
    };
    if offsets.is_empty() || offsets.len() == entries.len() {
        all_written(alloc, says, entries, offsets)
    } else {
        Ok(None)
    }
}

fn one_claim(alloc: Global, claim: Claim) -> Result<Plan, AllocError>
    ensures { IfOk result (λ plan. plan ≡ spec.one_claim claim) }
{
    let mut first = List::new(alloc);
    first.push(claim)?;
    Ok(Plan {
        first,
        written: List::new(alloc),
        effect_free: false,
        promise: None,
    })
}

fn one_claim_or_none(alloc: Global, claim: Option<Claim>) -> Result<Option<Plan>, AllocError>
    ensures { IfOk result (λ plan. plan ≡ option_map spec.one_claim claim) }
{
    match claim {
        None => Ok(None),
        Some(claim) => Ok(Some(one_claim(alloc, claim)?)),
    }
}

fn no_claims(alloc: Global, effect_free: bool) -> Plan
    ensures { result ≡ spec.plan_with effect_free [] [] }
{
    Plan {
        first: List::new(alloc),
        written: List::new(alloc),
        effect_free,
        promise: None,
    }
}

fn lowest(alloc: Global, least: Option<i32>) -> Result<List<Claim>, AllocError>
    ensures { IfOk result (λ claims. claims ≡ spec.lowest least) }
{
    let mut claims = List::new(alloc);
    if let Some(least) = least {
        claims.push(Claim::Low(least))?;
    }
    Ok(claims)
}

/// What is claimed of each array or bound that is listed, and before it the least number, where there is one.
fn claims_behind(
    alloc: Global,
    least: Option<i32>,
    says: Says,
    args: &[AnnotArg],
) -> Result<Option<Plan>, AllocError>
    ensures { IfOk result (λ plan. plan ≡ option_map (spec.plan_with false (spec.lowest least)) (spec.claims_written says args.now)) }
{
    let Some(written) = claims_written(alloc, says, args)? else {
        return Ok(None);
    };
    Ok(Some(Plan {
        first: lowest(alloc, least)?,
        written,
        effect_free: false,
        promise: None,
    }))
}

fn truth(value: Option<&AnnotValue>) -> Option<bool>
    ensures { result ≡ spec.truth (option_map (λ value. value.now) value.entry) }
{
    match value {
        Some(AnnotValue::Truth(answer)) => Some(*answer),
        _ => None,
    }
}

#[tactic(auto, using(crate::proofs::WithOthers::one_more))]
fn all_named(alloc: Global, mut entries: &[Text]) -> Result<Option<List<Naming>>, AllocError>
    ensures { IfOk result (λ named. named ≡ spec.all_named entries.entry.now) }
{
    let mut all = List::new(alloc);
    while let [entry, others @ ..] = entries {
        let Some(naming) = array_text(alloc, entry)? else {
            return Ok(None);
        };
        all.push(naming)?;
        entries = others;
    }
    Ok(Some(all))
}

/// What the claims are promised of, in the argument of that name.
fn promised_on(
    alloc: Global,
    name: &str,
    args: &[AnnotArg],
) -> Result<Option<List<Naming>>, AllocError>
    ensures { IfOk result (λ on. on ≡ spec.promised_on name.now args.now) }
{
    match texts(argument(name, args)) {
        None => Ok(None),
        Some(entries) => all_named(alloc, entries),
    }
}

fn promised(
    alloc: Global,
    when: Option<bool>,
    name: &str,
    says: Says,
    args: &[AnnotArg],
) -> Result<Option<Plan>, AllocError>
    ensures { IfOk result (λ plan. plan ≡ spec.promised when (spec.promised_on name.now args.now) (spec.claims_written says args.now)) }
{
    let Some(on) = promised_on(alloc, name, args)? else {
        return Ok(None);
    };
    let Some(written) = claims_written(alloc, says, args)? else {
        return Ok(None);
    };
    Ok(Some(Plan {
        first: List::new(alloc),
        written,
        effect_free: false,
        promise: Some(Promise { when, on }),
    }))
}

/// What is promised where the method returns an answer; none where that is none.
fn promised_if(alloc: Global, says: Says, args: &[AnnotArg]) -> Result<Option<Plan>, AllocError>
    ensures { IfOk result (λ plan. plan ≡ spec.promised_if (spec.truth (table.argument (codes "result") args.now)) (spec.promised_on (codes "expression") args.now) (spec.claims_written says args.now)) }
{
    match truth(argument("result", args)) {
        None => Ok(None),
        Some(answer) => promised(alloc, Some(answer), "expression", says, args),
    }
}

fn plan_of(alloc: Global, says: Says, args: &[AnnotArg]) -> Result<Option<Plan>, AllocError>
    ensures { IfOk result (λ plan. plan ≡ spec.plan_of says args.now) }
{
    match says {
        Says::Nothing => Ok(Some(no_claims(alloc, false))),
        Says::EffectFree => Ok(Some(no_claims(alloc, true))),
        Says::AtLeast(least) => one_claim_or_none(alloc, Some(Claim::Low(least))),
        Says::Between => one_claim_or_none(alloc, range_of(args)),
        Says::LengthAtLeast => one_claim_or_none(alloc, length_of(args)),
        Says::Arrays(least, _) => claims_behind(alloc, least, says, args),
        Says::Offsets | Says::Bounds => claims_behind(alloc, None, says, args),
        Says::Ensures => promised(alloc, None, "value", says, args),
        Says::EnsuresIf => promised_if(alloc, says, args),
    }
}

/// What an annotation claims, as it is written; none where an argument is bad.
#[tactic(auto, unfolding(crate::specs::Arguments::plan))]
pub fn planned(alloc: Global, says: Says, args: &[AnnotArg]) -> Result<Option<Plan>, AllocError>
    ensures { IfOk result (λ plan. plan ≡ spec.plan says args.now) }
{
    if are_taken(says, args) {
        plan_of(alloc, says, args)
    } else {
        Ok(None)
    }
}
