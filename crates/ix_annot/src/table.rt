//! The annotations: what each may stand on, and what it says.

ghost use Rattle.std.specs.Prelude.{◌≡◌, ◌+◌, ◌≤◌, ◌<◌, ◌^◌, map, option_map, bytes_eq};
ghost use Rattle.ix_annot.specs.Table as spec;

use crate::scope::Target;
use ix_text::Text;
use ix_tree::{Annot, AnnotArg, AnnotValue};

/// What an annotation may stand on.
#[derive(Clone, Copy)]
pub enum Targets {
    /// An int, or the ints in the innermost cells of an array.
    IntOrElement,
    Int,
    Array,
    /// A method or a constructor.
    Callable,
    Method,
    /// A method whose result is boolean.
    BooleanMethod,
}

/// What is said of a value `v` and an array.
#[derive(Clone, Copy)]
pub enum EachArray {
    /// `v + constant < array.length`
    Below(i32),
    /// `v = array.length`, of an array's length
    SameLength,
    /// What a binary search answers: `-array.length - 1 <= v <= array.length - 1`
    SearchResult,
    /// What a binary search answers that finds nothing: `-array.length - 1 <= v <= -1`
    NotFound,
}

/// What an annotation says of a value `v`, and what it takes for that.
#[derive(Clone, Copy)]
pub enum Says {
    Nothing,
    /// Its method or constructor is side-effect-free.
    EffectFree,
    /// `v >= least`
    AtLeast(i32),
    /// `from <= v <= to`; one that is missing is the end of the ints.
    Between,
    /// `v >= value`, of an array's length; 0 where it is missing.
    LengthAtLeast,
    /// `v >= least` where there is a `least`, and the same of each array in `value`.
    Arrays(Option<i32>, EachArray),
    /// `v + offset < array.length`, of each array in `value` and its entry in `offset`.
    Offsets,
    /// `v < bound`, of each bound in `value`.
    Bounds,
    /// Where its method returns, of each `v` in `value`: `v + offset < array.length`, of each array in `targetValue` and its entry in `offset`.
    Ensures,
    /// The same of each `v` in `expression`, where its method returns the answer in `result`.
    EnsuresIf,
}

const TABLE: [(&str, Targets, Says); 20] = [
    ("NonNegative", Targets::IntOrElement, Says::AtLeast(0)),
    ("Positive", Targets::IntOrElement, Says::AtLeast(1)),
    ("GTENegativeOne", Targets::IntOrElement, Says::AtLeast(-1)),
    ("IntRange", Targets::IntOrElement, Says::Between),
    ("LTLengthOf", Targets::Int, Says::Offsets),
    (
        "LTEqLengthOf",
        Targets::Int,
        Says::Arrays(None, EachArray::Below(-1)),
    ),
    (
        "LTOMLengthOf",
        Targets::Int,
        Says::Arrays(None, EachArray::Below(1)),
    ),
    (
        "IndexFor",
        Targets::Int,
        Says::Arrays(Some(0), EachArray::Below(0)),
    ),
    (
        "IndexOrHigh",
        Targets::Int,
        Says::Arrays(Some(0), EachArray::Below(-1)),
    ),
    (
        "IndexOrLow",
        Targets::Int,
        Says::Arrays(Some(-1), EachArray::Below(0)),
    ),
    (
        "SearchIndexFor",
        Targets::Int,
        Says::Arrays(None, EachArray::SearchResult),
    ),
    (
        "NegativeIndexFor",
        Targets::Int,
        Says::Arrays(None, EachArray::NotFound),
    ),
    ("LessThan", Targets::Int, Says::Bounds),
    (
        "SameLen",
        Targets::Array,
        Says::Arrays(None, EachArray::SameLength),
    ),
    ("MinLen", Targets::Array, Says::LengthAtLeast),
    ("SideEffectFree", Targets::Callable, Says::EffectFree),
    ("Pure", Targets::Callable, Says::EffectFree),
    ("Override", Targets::Method, Says::Nothing),
    ("EnsuresLTLengthOf", Targets::Method, Says::Ensures),
    (
        "EnsuresLTLengthOfIf",
        Targets::BooleanMethod,
        Says::EnsuresIf,
    ),
];

fn row_in(mut rows: &[(&str, Targets, Says)], name: &str) -> Option<(Targets, Says)>
    ensures { result ≡ spec.row_in (map (λ row. (row.0.now, row.1, row.2)) rows.entry.now) name.now }
{
    while let [(annotation, targets, says), rest @ ..] = rows {
        if *annotation == name {
            return Some((*targets, *says));
        }
        rows = rest;
    }
    None
}

/// What the annotation of that name may stand on, and what it says, if there is one.
#[tactic(auto, unfolding(crate::specs::Table::row_named))]
pub fn row_named(name: &Text) -> Option<(Targets, Says)>
    ensures { result ≡ spec.row_named name.now }
{
    row_in(&TABLE, name.as_str())
}

/// Whether an annotation with these targets may stand there.
pub fn fits(targets: Targets, target: Target) -> bool
    ensures { result ≡ spec.fits targets target }
{
    match targets {
        Targets::IntOrElement => matches!(target, Target::Int | Target::Element),
        Targets::Int => matches!(target, Target::Int),
        Targets::Array => matches!(target, Target::Array),
        Targets::Callable => matches!(
            target,
            Target::Method | Target::BooleanMethod | Target::Constructor
        ),
        Targets::Method => matches!(target, Target::Method | Target::BooleanMethod),
        Targets::BooleanMethod => matches!(target, Target::BooleanMethod),
    }
}

/// Whether the annotation speaks of its method or constructor, and not of a variable, a result or a new array.
pub fn is_of_method(targets: Targets) -> bool
    ensures { result ≡ spec.is_of_method targets }
{
    matches!(
        targets,
        Targets::Callable | Targets::Method | Targets::BooleanMethod
    )
}

fn is_named(arg: &AnnotArg, name: &str) -> bool
    ensures { result ≡ bytes_eq (spec.arg_name arg.now.name) name.now }
{
    match &arg.name {
        None => "value" == name,
        Some(written) => written.text.as_str() == name,
    }
}

/// The value of the first argument of that name. One without a name is `value`.
pub fn argument<'a>(name: &str, args: &'a [AnnotArg]) -> Option<&'a AnnotValue>
    ensures { option_map (λ value. value.now) result ≡ spec.argument name.now args.now }
{
    for arg in args {
        if is_named(arg, name) {
            return Some(&arg.value);
        }
    }
    None
}

fn entries_in(value: Option<&AnnotValue>) -> u128
    ensures { record {
      value : result ≡ spec.entries_in (option_map (λ value. value.now) value.entry);
      fits : result < 2 ^ 63;
    } }
{
    match value {
        Some(AnnotValue::Texts(texts)) => texts.as_slice().len() as u128,
        _ => 0,
    }
}

/// How many texts the argument of that name lists.
fn entries(name: &str, args: &[AnnotArg]) -> u128
    ensures { record {
      value : result ≡ spec.entries args.now name.now;
      fits : result < 2 ^ 63;
    } }
{
    entries_in(argument(name, args))
}

/// How many claims the annotation counts, before anything of it is tested.
#[tactic(auto, using(crate::proofs::Products::product_fits))]
pub fn counted(annot: &Annot) -> u128
    ensures { result ≡ spec.counted annot.now }
{
    let Some((_, says)) = row_named(&annot.name.text) else {
        return 0;
    };
    let args = annot.args.as_slice();
    match says {
        Says::Nothing | Says::EffectFree => 0,
        Says::AtLeast(_) | Says::Between | Says::LengthAtLeast => 1,
        Says::Arrays(Some(_), _) => 1 + entries("value", args),
        Says::Arrays(None, _) | Says::Offsets | Says::Bounds => entries("value", args),
        Says::Ensures => entries("value", args) * entries("targetValue", args),
        Says::EnsuresIf => entries("expression", args) * entries("targetValue", args),
    }
}
