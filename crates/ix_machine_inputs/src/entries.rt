//! The method that a run begins with.
ghost use Rattle.std.specs.Prelude.{◌≡◌, ◌<◌, ◌∷◌, ◌++◌, IfSome, length};
ghost use Rattle.std.specs.List.{list_all};
ghost use Rattle.std.specs.Str.{bytes_eq};
ghost use Rattle.ix_core.specs.Tables.{class_at};
ghost use Rattle.ix_machine_inputs.specs.Entries as spec;

use ix_core::{Base, Method, Program, Type_};

/// Whether words can write values of the type.
fn is_input_type(ty: &Type_) -> bool
    ensures { result ≡ spec.is_input_type ty.now }
{
    match ty {
        Type_::Plain(of) => matches!(of, Base::Int | Base::Bool),
        Type_::Array { base, depth, .. } => matches!(base, Base::Int) && *depth == 1,
        Type_::Void => false,
    }
}

/// Whether words can write values of all these types.
fn are_input_types(types: &[Type_]) -> bool
    ensures { result ≡ list_all spec.is_input_type types.now }
{
    types.iter().all(|ty| is_input_type(ty))
}

/// The name of a class; the empty text where there is none of that number.
fn class_name(program: &Program, class: u32) -> &str
    ensures { result.now ≡ (class_at program.now class).name }
{
    match program.classes.as_slice().get(class as usize) {
        Some(found) => found.name.as_str(),
        None => "",
    }
}

/// Whether the entry is `CLASS.METHOD`.
fn is_name(entry: &str, class: &str, method: &str) -> bool
    ensures { result ≡ bytes_eq entry.now (class.now ++ 46 ∷ method.now) }
{
    let Some(rest) = entry.strip_prefix(class) else {
        return false;
    };
    let Some(name) = rest.strip_prefix('.') else {
        return false;
    };
    name == method
}

/// Whether a run can begin with the method where that entry is named.
fn is_entry(program: &Program, entry: &str, method: &Method) -> bool
    ensures { result ≡ spec.is_entry program.now entry.now method.now }
{
    method.is_static
        && is_name(
            entry,
            class_name(program, method.class),
            method.name.as_str(),
        )
        && are_input_types(method.param_types.as_slice())
}

/// The place, among the methods, of the static method that `CLASS.METHOD` means, whose parameters are int, boolean or `int[]`; none where there is no such
/// method.
pub fn entry_of(program: &Program, entry: &str) -> Option<usize>
    ensures place { result ≡ spec.entry_of program.now entry.now }
    ensures within { IfSome result (λ place. place < length program.now.methods) }
{
    program
        .methods
        .as_slice()
        .iter()
        .position(|method| is_entry(program, entry, method))
}
