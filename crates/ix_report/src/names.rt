//! The lines of errors on names, types and annotations, and the names of limits.

mod once;

ghost use Rattle.std.specs.Prelude.{◌≡◌, ◌≤◌, length, IfOk, string_bytes};
ghost use Rattle.ix_report.specs.Names as spec;

use crate::names::once::told;
use ix_meaning::{NameError, Rule, Which};
use ix_text::LineMap;
use std::alloc::{AllocError, Global};

/// What users know a rule by.
pub(crate) fn key(rule: Rule) -> &'static str
    ensures { result.now ≡ spec.key rule }
{
    match rule {
        Rule::UnknownName => "unknown.name",
        Rule::DuplicateName => "duplicate.name",
        Rule::TypeMismatch => "type.mismatch",
        Rule::WrongArguments => "wrong.arguments",
        Rule::CyclicClass => "cyclic.class",
        Rule::NotStatic => "not.static",
        Rule::FinalAssigned => "final.assigned",
        Rule::NotAssignable => "not.assignable",
        Rule::BreakOutside => "break.outside",
        Rule::UnknownAnnotation => "unknown.annotation",
        Rule::BadArgument => "bad.argument",
        Rule::BadName => "bad.name",
        Rule::WrongTarget => "wrong.target",
        Rule::InheritedName => "inherited.name",
    }
}

/// What users know a limit by.
pub fn limit_name(which: Which) -> &'static str
    ensures { result.now ≡ spec.limit_name which }
{
    match which {
        Which::Classes => "classes",
        Which::Methods => "methods",
        Which::Parameters => "parameters",
        Which::Claims => "claims",
        Which::Inheritance => "inheritance",
        Which::Loops => "loops",
        Which::Slots => "slots",
        Which::Ops => "ops",
    }
}

/// The line of an error.
fn error_line(
    alloc: Global,
    lines: &LineMap,
    file: &str,
    error: &NameError,
) -> Result<String, AllocError>
    requires { error.now.span.from ≤ length lines.now }
    ensures { IfOk result (λ text. string_bytes text ≡ spec.error_line file.now lines.now error.now) }
{
    let (line, column) = lines.place(error.span.from);
    let key = key(error.rule);
    format!(in alloc; "{file}:{line}:{column}: {key}\n")
}

/// The lines of a source with errors on names: one for each of them, in their order, each line once, and one with the number of
/// these lines. `lines` are those of the source, in which each error starts.
#[tactic(auto, using(crate::proofs::ToldErrors::told_names_start))]
pub fn misnamed(
    alloc: Global,
    lines: &LineMap,
    file: &str,
    errors: &[NameError],
) -> Result<String, AllocError>
    requires { spec.StartWithin (length lines.now) errors.now }
    ensures { IfOk result (λ text. string_bytes text ≡ spec.misnamed file.now lines.now errors.now) }
{
    let mut text = String::new(alloc);
    let told = told(alloc, errors)?;
    for error in told.as_slice() {
        text.push_str(error_line(alloc, lines, file, error)?.as_str())?;
    }
    let count = told.len();
    write!(text, "rejected: {count} errors\n")?;
    Ok(text)
}
