//! The values that words write.
ghost use Rattle.std.specs.Prelude.{◌≡◌, [], ◌∷◌, ◌++◌, List as Elements, ℕ, map, option_map, IfOk, ◌==◌};
ghost use Rattle.std.specs.List.{slice_split};
ghost use Rattle.ix_machine_inputs.specs.Words.{WritesInt, WritesBool, WriteInts, WritesInts, IsWithin};

use ix_text::List;
use std::alloc::{AllocError, Global};

/// The int that the word writes, without leading zeros, `+` or `-0`; none where it writes no int. The one error is want of memory.
pub fn int_in(alloc: Global, word: &str) -> Result<Option<i32>, AllocError>
    ensures { IfOk result (λ found. WritesInt word.now found) }
{
    let Ok(n) = word.parse::<i32>() else {
        return Ok(None);
    };
    let written = format!(in alloc; "{n}")?;
    if written.as_str() == word {
        Ok(Some(n))
    } else {
        Ok(None)
    }
}

/// The boolean that the word writes; none where it writes none.
pub fn bool_in(word: &str) -> Option<bool>
    ensures { WritesBool word.now result }
{
    if word == "true" {
        Some(true)
    } else if word == "false" {
        Some(false)
    } else {
        None
    }
}

/// What stands between `[` and `]`, if the word begins and ends with them.
fn within(word: &str) -> Option<&str>
    ensures { IsWithin word.now result }
{
    let Some(rest) = word.strip_prefix('[') else {
        return None;
    };
    rest.strip_suffix(']')
}

/// The ints that the pieces write; none where one writes no int. The one error is want of memory.
fn ints_of(alloc: Global, pieces: &[&str]) -> Result<Option<List<i32>>, AllocError>
    ensures { IfOk result (λ found. WriteInts (map (λ piece. piece.now) pieces.now) found) }
{
    let mut ints = List::new(alloc);
    for piece in pieces {
        let Some(n) = int_in(alloc, *piece)? else {
            return Ok(None);
        };
        ints.push(n)?;
    }
    Ok(Some(ints))
}

/// The pieces between commas. The one error is want of memory.
fn pieces_of<'w>(alloc: Global, inner: &'w str) -> Result<Vec<&'w str>, AllocError>
    ensures { IfOk result (λ pieces. map (λ piece. piece.now) pieces.items ≡ slice_split (λ b. b == 44) inner.now) }
{
    inner.split(',').collect(alloc)
}

/// The ints that the word writes between brackets; none where it writes no ints. The one error is want of memory.
pub fn ints_in(alloc: Global, word: &str) -> Result<Option<List<i32>>, AllocError>
    ensures { IfOk result (λ found. WritesInts word.now found) }
{
    let Some(inner) = within(word) else {
        return Ok(None);
    };
    if inner.is_empty() {
        return Ok(Some(List::new(alloc)));
    }
    let pieces = pieces_of(alloc, inner)?;
    ints_of(alloc, pieces.as_slice())
}
