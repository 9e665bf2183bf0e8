//! Classes, methods and parameters, each counted over the whole source before the next.

ghost use Rattle.std.specs.Prelude.{◌≡◌, ◌∷◌, [], length, option_copied, option_map, slice_get};
ghost use Rattle.ix_meaning.specs.declared.note.Which.TheVariants as which;
ghost use Rattle.ix_meaning.specs.Limits as spec;
ghost use Rattle.ix_names.specs.Shown.{shown};

use crate::claims::claims_passed;
use crate::passed::{Passed, passed_at};
use ix_meaning::Which;
use ix_tree::{ClassDecl, LocalDecl, Member, MethodDecl};

const MOST_CLASSES: usize = 256;

const MOST_METHODS: usize = 4096;

const MOST_PARAMS: usize = 32;

/// The class with so many before it.
fn class_after(classes: &[ClassDecl], before: usize) -> Option<&ClassDecl>
    ensures { option_copied result ≡ slice_get classes.now before }
{
    classes.get(before)
}

/// The parameter with so many before it.
fn param_after(params: &[LocalDecl], before: usize) -> Option<&LocalDecl>
    ensures { option_copied result ≡ slice_get params.now before }
{
    params.get(before)
}

fn classes_passed(classes: &[ClassDecl]) -> Option<Passed>
    ensures { option_map shown result ≡ spec.past_names which.Classes spec.most_classes (spec.class_names classes.now) }
{
    match class_after(classes, MOST_CLASSES) {
        None => None,
        Some(class) => Some(passed_at(Which::Classes, &class.name)),
    }
}

fn count_methods(members: &[Member]) -> usize
    ensures { result ≡ length (spec.methods_of members.now) }
{
    let mut count = 0;
    for member in members {
        if let Member::Method(_) = member {
            count += 1;
        }
    }
    count
}

/// The method with so many before it.
fn method_after(members: &[Member], before: usize) -> Option<&MethodDecl>
    ensures { option_copied result ≡ slice_get (spec.methods_of members.now) before }
{
    let mut left = before;
    for member in members {
        if let Member::Method(method) = member {
            if left == 0 {
                return Some(method);
            }
            left -= 1;
        }
    }
    None
}

fn methods_passed(classes: &[ClassDecl]) -> Option<Passed>
    ensures { option_map shown result ≡ spec.past_names which.Methods spec.most_methods (spec.method_names (spec.all_methods classes.now)) }
{
    let mut left = MOST_METHODS;
    for class in classes {
        let count = count_methods(class.members.as_slice());
        if left < count {
            return method_passed(class.members.as_slice(), left);
        }
        left -= count;
    }
    None
}

fn method_passed(members: &[Member], before: usize) -> Option<Passed>
    ensures { option_map shown result ≡ option_map (λ m. spec.passed which.Methods m.name) (slice_get (spec.methods_of members.now) before) }
{
    match method_after(members, before) {
        None => None,
        Some(method) => Some(passed_at(Which::Methods, &method.name)),
    }
}

fn params_passed(method: &MethodDecl) -> Option<Passed>
    ensures { option_map shown result ≡ spec.past_names which.Parameters spec.most_params (spec.param_names method.now.params) }
{
    match param_after(method.params.as_slice(), MOST_PARAMS) {
        None => None,
        Some(param) => Some(passed_at(Which::Parameters, &param.name)),
    }
}

fn member_params(member: &Member) -> Option<Passed>
    ensures { option_map shown result ≡ spec.past_params (spec.methods_of (member.now ∷ [])) }
{
    match member {
        Member::Field(_) => None,
        Member::Method(method) => params_passed(method),
    }
}

fn members_params(members: &[Member]) -> Option<Passed>
    ensures { option_map shown result ≡ spec.past_params (spec.methods_of members.now) }
{
    for member in members {
        if let Some(passed) = member_params(member) {
            return Some(passed);
        }
    }
    None
}

fn all_params_passed(classes: &[ClassDecl]) -> Option<Passed>
    ensures { option_map shown result ≡ spec.past_params (spec.all_methods classes.now) }
{
    for class in classes {
        if let Some(passed) = members_params(class.members.as_slice()) {
            return Some(passed);
        }
    }
    None
}

/// The first limit that is passed: of classes, methods, parameters of a method, or claims of a declaration, each over the whole source
/// before the next. None where none is passed.
pub fn limit(classes: &[ClassDecl]) -> Option<Passed>
    ensures { option_map shown result ≡ spec.limit classes.now }
{
    if let Some(passed) = classes_passed(classes) {
        return Some(passed);
    }
    if let Some(passed) = methods_passed(classes) {
        return Some(passed);
    }
    if let Some(passed) = all_params_passed(classes) {
        return Some(passed);
    }
    claims_passed(classes)
}
