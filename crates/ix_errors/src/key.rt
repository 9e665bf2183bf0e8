//! The key by which errors are sorted: numbers of one length, so that no memory is taken.

ghost use Rattle.std.specs.Prelude.{◌≡◌, pos, [], ◌∷◌};
ghost use Rattle.ix_errors.specs.FullKey.{name_kind, name_number, offset_kind, offset_name_kind, offset_name_number, full_claim_key, full_last_key, full_key};
ghost use Rattle.ix_errors.specs.Order.{subject_key, whom_key};

use ix_core::{Claim, Detail, Error, Name, Off, Subject};

/// Start, rule, whom the error speaks of, rank, end, claim.
pub type Key = (u32, u8, [i64; 3], usize, u32, [i64; 8]);

fn subject_key(subject: Subject) -> [i64; 3]
    ensures { result ≡ subject_key subject }
{
    match subject {
        Subject::Element => [0, 0, 0],
        Subject::Param(method, number) => [1, method as i64, number as i64],
        Subject::Local(method, number) => [2, method as i64, number as i64],
        Subject::FieldNamed(field) => [3, field as i64, 0],
        Subject::Result(method) => [4, method as i64, 0],
        Subject::PostField(method, field) => [5, method as i64, field as i64],
    }
}

fn whom_key(detail: Detail) -> [i64; 3]
    ensures { result ≡ whom_key detail }
{
    match detail {
        Detail::Plain => [0, 0, 0],
        Detail::Claim(subject, _) => subject_key(subject),
    }
}

fn name_key(name: Name) -> (i64, i64)
    ensures { result ≡ (name_kind name, name_number name) }
{
    match name {
        Name::Param(number) => (0, number as i64),
        Name::Local(number) => (1, number as i64),
        Name::FieldNamed(number) => (2, number as i64),
    }
}

fn signed_key(kind: i64, name: Name) -> (i64, i64, i64)
    ensures { result ≡ (kind, name_kind name, name_number name) }
{
    let (name_kind, number) = name_key(name);
    (kind, name_kind, number)
}

fn offset_key(offset: Off) -> (i64, i64, i64)
    ensures { result ≡ (offset_kind offset, offset_name_kind offset, offset_name_number offset) }
{
    match offset {
        Off::Nothing => (0, 0, 0),
        Off::Plus(name) => signed_key(1, name),
        Off::Minus(name) => signed_key(2, name),
    }
}

fn upper_key(array: Name, offset: Off, constant: i32) -> [i64; 8]
    ensures { result ≡ full_claim_key (Claim.Upper array offset constant) }
{
    let (kind, number) = name_key(array);
    let (sign, name_kind, name_number) = offset_key(offset);
    [
        6,
        kind,
        number,
        sign,
        name_kind,
        name_number,
        constant as i64,
        0,
    ]
}

fn named_key(kind: i64, name: Name, constant: i64) -> [i64; 8]
    ensures { result ≡ kind ∷ name_kind name ∷ name_number name ∷ pos 0 ∷ pos 0 ∷ pos 0 ∷ constant ∷ pos 0 ∷ [] }
{
    let (name_kind, number) = name_key(name);
    [kind, name_kind, number, 0, 0, 0, constant, 0]
}

fn claim_key(claim: Claim) -> [i64; 8]
    ensures { result ≡ full_claim_key claim }
{
    match claim {
        Claim::Low(low) => [1, 0, 0, 0, 0, 0, low as i64, 0],
        Claim::Range(low, high) => [2, 0, 0, 0, 0, 0, low as i64, high as i64],
        Claim::Length(least) => [3, 0, 0, 0, 0, 0, least as i64, 0],
        Claim::Same(other) => named_key(4, other, 0),
        Claim::Less(name, constant) => named_key(5, name, constant as i64),
        Claim::Upper(array, offset, constant) => upper_key(array, offset, constant),
        Claim::Search(array) => named_key(7, array, 0),
        Claim::Negative(array) => named_key(8, array, 0),
    }
}

fn last_key(detail: Detail) -> [i64; 8]
    ensures { result ≡ full_last_key detail }
{
    match detail {
        Detail::Plain => [0; 8],
        Detail::Claim(_, claim) => claim_key(claim),
    }
}

pub fn key_of(error: &Error, rank: usize) -> Key
    ensures { result ≡ full_key error.now rank }
{
    (
        error.span.from,
        error.rule,
        whom_key(error.detail),
        rank,
        error.span.to,
        last_key(error.detail),
    )
}
