//! Certificates read.

ghost use Rattle.std.specs.Prelude.{◌≡◌, ◌≢◌, ◌++◌, ◌↔◌, ℕ, List, length, map, IsTrue, IfOk, IfSome, IfNone, MatchResult, codes, decimal, string_bytes};
ghost use Rattle.ix_core.specs.declared.fact.Profile.{Profile};
ghost use Rattle.ix_facts.specs.Stores.{Stored};
ghost use Rattle.ix_store.specs.StoredFacts.{stored};
ghost use Rattle.ix_cert.specs.Lines.{ended};
ghost use Rattle.ix_cert.specs.Labellings.{IsLabelling, LabelsText, MethodText, MethodsText, PartText, loops_of};
ghost use Rattle.ix_core.specs.FirstLine.{profile_text};
ghost use Rattle.ix_cert.specs.Reading.{EndsLabel, LabelText, IsMemory};

use crate::cut::behind;
use crate::facts::read_facts;
use crate::loops::loops_of;
use crate::stop::Stop;
use ix_core::{Method, Profile, Program};
use ix_store::Store;
use ix_text::List;
use std::alloc::{AllocError, Global};

#[tactic(auto, using(std::proofs::lemmas::List::append_assoc))]
fn header(alloc: Global, word: &str, number: usize) -> Result<String, AllocError>
    ensures { IfOk result (λ line. string_bytes line ≡ ended (word.now ++ decimal number)) }
{
    let mut line = String::from_str(alloc, word)?;
    write!(line, "{number}\n")?;
    Ok(line)
}

/// What stands behind the line of this word and number, with which the text begins.
fn behind_line<'a>(
    alloc: Global,
    word: &str,
    number: usize,
    text: &'a [u8],
) -> Result<&'a [u8], Stop>
    ensures line { IfOk result (λ rest. text.now ≡ ended (word.now ++ decimal number) ++ rest.now) }
    ensures each { (rest : List ℕ) → text.now ≡ ended (word.now ++ decimal number) ++ rest → MatchResult result (λ found. found.now ≡ rest) IsMemory }
{
    let line = header(alloc, word, number)?;
    match behind(line.as_bytes(), text) {
        None => Err(Stop::Form),
        Some(rest) => Ok(rest),
    }
}

/// A label of lines, where they are those of all facts of a store.
fn read_known<'a>(
    alloc: Global,
    slots: u32,
    fields: u32,
    text: &'a [u8],
) -> Result<(Store, &'a [u8]), Stop>
    ensures label { IfOk result (λ parts. LabelText slots fields (stored parts.0) text.now parts.1.now) }
    ensures each { (store : Stored) (rest : List ℕ) → ((other : List ℕ) → text.now ≢ codes "unreachable\n" ++ other) → LabelText slots fields store text.now rest → EndsLabel rest → MatchResult result (λ parts. parts.1.now ≡ rest) IsMemory }
{
    let (facts, rest) = read_facts(alloc, slots, fields, text)?;
    match Store::from_facts(alloc, facts.as_slice())? {
        None => Err(Stop::Form),
        Some(store) => Ok((store, rest)),
    }
}

/// A label: `unreachable`, or the lines of all facts of a store.
fn read_store<'a>(
    alloc: Global,
    slots: u32,
    fields: u32,
    text: &'a [u8],
) -> Result<(Store, &'a [u8]), Stop>
    ensures label { IfOk result (λ parts. LabelText slots fields (stored parts.0) text.now parts.1.now) }
    ensures each { (store : Stored) (rest : List ℕ) → LabelText slots fields store text.now rest → EndsLabel rest → MatchResult result (λ parts. parts.1.now ≡ rest) IsMemory }
{
    match behind(b"unreachable\n", text) {
        None => read_known(alloc, slots, fields, text),
        Some(rest) => Ok((Store::unreachable(), rest)),
    }
}

/// The labels of a method, as many as it has loops.
fn read_labels<'a>(
    alloc: Global,
    slots: u32,
    fields: u32,
    count: usize,
    text: &'a [u8],
) -> Result<(List<Store>, &'a [u8]), Stop>
    ensures count { IfOk result (λ parts. length parts.0 ≡ count) }
    ensures labels { IfOk result (λ parts. LabelsText slots fields 0 (map stored parts.0) text.now parts.1.now) }
    ensures each { (stores : List Stored) (rest : List ℕ) → length stores ≡ count → LabelsText slots fields 0 stores text.now rest → EndsLabel rest → MatchResult result (λ parts. parts.1.now ≡ rest) IsMemory }
{
    let mut stores = List::new(alloc);
    let mut rest = text;
    for number in 0..count {
        let label = behind_line(alloc, "label ", number, rest)?;
        let (store, later) = read_store(alloc, slots, fields, label)?;
        stores.push(store)?;
        rest = later;
    }
    Ok((stores, rest))
}

fn read_method<'a>(
    alloc: Global,
    fields: u32,
    number: usize,
    method: &Method,
    text: &'a [u8],
) -> Result<(List<Store>, &'a [u8]), Stop>
    ensures { record {
      each : (stores : List Stored) (rest : List ℕ) → MethodText fields number method.now stores text.now rest → EndsLabel rest → MatchResult result (λ parts. parts.1.now ≡ rest) IsMemory;
      method : IfOk result (λ parts. MethodText fields number method.now (map stored parts.0) text.now parts.1.now);
    } }
{
    let count = loops_of(method)?;
    if count == 0 {
        return Ok((List::new(alloc), text));
    }
    let labels = behind_line(alloc, "method ", number, text)?;
    read_labels(alloc, method.slots, fields, count, labels)
}

fn read_methods<'a>(
    alloc: Global,
    fields: u32,
    methods: &[Method],
    text: &'a [u8],
) -> Result<(List<List<Store>>, &'a [u8]), Stop>
    ensures methods { IfOk result (λ parts. MethodsText fields 0 methods.now (map (map stored) parts.0) text.now parts.1.now) }
    ensures each { (labels : List (List Stored)) (rest : List ℕ) → MethodsText fields 0 methods.now labels text.now rest → EndsLabel rest → MatchResult result (λ parts. parts.1.now ≡ rest) IsMemory }
{
    let mut labels = List::new(alloc);
    let mut rest = text;
    for (number, method) in methods.iter().enumerate() {
        let (stores, later) = read_method(alloc, fields, number, method, rest)?;
        labels.push(stores)?;
        rest = later;
    }
    Ok((labels, rest))
}

/// The profile in the first line, and what stands behind it.
fn read_profile(text: &[u8]) -> Result<(Profile, &[u8]), Stop>
    ensures profile { IfOk result (λ parts. text.now ≡ ended (codes "certificate 1 " ++ profile_text parts.0) ++ parts.1.now) }
    ensures each { (profile : Profile) (rest : List ℕ) → text.now ≡ ended (codes "certificate 1 " ++ profile_text profile) ++ rest → MatchResult result (λ parts. parts.1.now ≡ rest) IsMemory }
{
    if let Some(rest) = text.strip_prefix(b"certificate 1 ideal\n") {
        return Ok((Profile::Ideal, rest));
    }
    match text.strip_prefix(b"certificate 1 int32\n") {
        None => Err(Stop::Form),
        Some(rest) => Ok((Profile::Int32, rest)),
    }
}

fn is_end(rest: &[u8]) -> bool
    ensures { IsTrue result ↔ (rest.now ≡ codes "end\n") }
{
    rest == b"end\n".as_slice()
}

/// How many fields the program has. More than there are numbers for count as want of memory.
fn count_fields(program: &Program) -> Result<u32, AllocError>
    ensures { IfOk result (λ fields. fields ≡ length program.now.fields) }
{
    match u32::try_from(program.fields.len()) {
        Ok(fields) => Ok(fields),
        Err(_) => Err(AllocError),
    }
}

/// The profile and the labels of a certificate.
fn labelling(
    alloc: Global,
    program: &Program,
    text: &[u8],
) -> Result<(Profile, List<List<Store>>), Stop>
    ensures labelling { IfOk result (λ read. IsLabelling program.now read.0 (map (map stored) read.1) text.now) }
    ensures each { (profile : Profile) (labels : List (List Stored)) → IsLabelling program.now profile labels text.now → MatchResult result (λ read. Unit {0}) IsMemory }
{
    let fields = count_fields(program)?;
    let (profile, methods) = read_profile(text)?;
    let (labels, rest) = read_methods(alloc, fields, program.methods.as_slice(), methods)?;
    if !is_end(rest) {
        return Err(Stop::Form);
    }
    Ok((profile, labels))
}

/// The profile and the labels of a certificate: for each method a list, for each loop a store; none exactly where the bytes are no labelling of the program.
/// The one error is want of memory.
pub fn read(
    alloc: Global,
    program: &Program,
    text: &[u8],
) -> Result<Option<(Profile, List<List<Store>>)>, AllocError>
    ensures labelling { IfOk result (λ read. IfSome read (λ read. IsLabelling program.now read.0 (map (map stored) read.1) text.now)) }
    ensures none { IfOk result (λ read. IfNone read ((profile : Profile) (labels : List (List Stored)) → IsLabelling program.now profile labels text.now → ⊥)) }
{
    match labelling(alloc, program, text) {
        Ok(read) => Ok(Some(read)),
        Err(Stop::Form) => Ok(None),
        Err(Stop::Memory) => Err(AllocError),
    }
}
