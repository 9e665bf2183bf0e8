//! Labels written down.

ghost use Rattle.std.specs.Prelude.{◌≡◌, ◌++◌, length, map, IfOk, OnOk, codes, decimal, string_bytes};
ghost use Rattle.ix_store.specs.StoredFacts.{stored};
ghost use Rattle.ix_cert.specs.Lines.{ended};
ghost use Rattle.ix_cert.specs.Labellings.{IsLabelling};
ghost use Rattle.ix_core.specs.FirstLine.{profile_text};
ghost use Rattle.ix_cert.specs.Adding.{Adds, AddsLabel, AddsStore, AreLabels, AreLabelsText, AreMethodsText, IsMethodText};

use crate::lines::add_lines;
use ix_core::{Method, Profile, Program};
use ix_store::Store;
use ix_text::List;
use std::alloc::{AllocError, Global};

fn add_unreachable(text: &mut String) -> Result<(), AllocError>
    ensures { OnOk result (string_bytes text.new ≡ string_bytes text.old ++ codes "unreachable\n") }
{
    text.push_str("unreachable\n")
}

fn add_store(alloc: Global, text: &mut String, store: &Store) -> Result<(), AllocError>
    ensures { OnOk result (AddsStore (stored store.now) (string_bytes text.old) (string_bytes text.new)) }
{
    match store.facts(alloc)? {
        None => add_unreachable(text),
        Some(facts) => add_lines(alloc, text, facts.as_slice()),
    }
}

fn add_label(
    alloc: Global,
    text: &mut String,
    number: usize,
    store: &Store,
) -> Result<(), AllocError>
    ensures { OnOk result (AddsLabel number (stored store.now) (string_bytes text.old) (string_bytes text.new)) }
{
    write!(text, "label {number}\n").and(add_store(alloc, text, store))
}

/// Adds the labels of a method.
fn add_labels(alloc: Global, text: &mut String, stores: &[Store]) -> Result<(), AllocError>
    ensures { OnOk result (Adds (AreLabelsText (map stored stores.now)) (string_bytes text.old) (string_bytes text.new)) }
{
    for (number, store) in stores.iter().enumerate() {
        add_label(alloc, text, number, store)?;
    }
    Ok(())
}

fn add_method(
    alloc: Global,
    text: &mut String,
    number: usize,
    method: &Method,
    stores: &[Store],
) -> Result<(), AllocError>
    ensures { OnOk result (Adds (IsMethodText number method.now (map stored stores.now)) (string_bytes text.old) (string_bytes text.new)) }
{
    if !stores.is_empty() {
        return write!(text, "method {number}\n").and(add_labels(alloc, text, stores));
    }
    Ok(())
}

fn add_methods(
    alloc: Global,
    text: &mut String,
    methods: &[Method],
    labels: &[List<Store>],
) -> Result<(), AllocError>
    requires { length labels.now ≡ length methods.now }
    ensures { OnOk result (Adds (AreMethodsText methods.now (map (map stored) labels.now)) (string_bytes text.old) (string_bytes text.new)) }
{
    for (number, method) in methods.iter().enumerate() {
        add_method(alloc, text, number, method, labels[number].as_slice())?;
    }
    Ok(())
}

fn add_profile(text: &mut String, profile: Profile) -> Result<(), AllocError>
    ensures { OnOk result (string_bytes text.new ≡ string_bytes text.old ++ ended (codes "certificate 1 " ++ profile_text profile)) }
{
    match profile {
        Profile::Ideal => text.push_str("certificate 1 ideal\n"),
        Profile::Int32 => text.push_str("certificate 1 int32\n"),
    }
}

/// The certificate of a program in a profile with these labels: for each method a list, for each loop a store that may be written down. The one error is want
/// of memory.
pub fn print(
    alloc: Global,
    program: &Program,
    profile: Profile,
    labels: &[List<Store>],
) -> Result<Vec<u8>, AllocError>
    requires { AreLabels program.now (map (map stored) labels.now) }
    ensures { IfOk result (λ text. IsLabelling program.now profile (map (map stored) labels.now) text.items) }
{
    let mut text = String::new(alloc);
    add_profile(&mut text, profile)?;
    add_methods(alloc, &mut text, program.methods.as_slice(), labels)?;
    text.push_str("end\n")?;
    Ok(text.into_bytes())
}
