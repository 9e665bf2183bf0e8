//! The values of options: numbers, limits, and how sums count.
ghost use Rattle.std.specs.Prelude.{◌≡◌, ◌≤◌, IfSome, option_map};
ghost use Rattle.ix_words.specs.Values as spec;

/// The number of the digits, where they are decimal digits and it is at most `most`.
fn digits(bytes: &[u8], most: u32) -> Option<u32>
    ensures { record {
      value : result ≡ spec.digits_from most 0 bytes.now;
      within : IfSome result (λ value. value ≤ most);
    } }
{
    let mut value: u64 = 0;
    for byte in bytes {
        let byte = *byte;
        if byte < b'0' || byte > b'9' {
            return None;
        }
        let next = value * 10 + (byte - b'0') as u64;
        if next > most as u64 {
            return None;
        }
        value = next;
    }
    Some(value as u32)
}

/// The number that the word is, in decimal without a sign or a leading zero, where it lies in the range.
pub(crate) fn number(word: &str, least: u32, most: u32) -> Option<u32>
    ensures value { result ≡ spec.number_in least most word.now }
    ensures least { IfSome result (λ value. least ≤ value) }
    ensures most { IfSome result (λ value. value ≤ most) }
{
    let bytes = word.as_bytes();
    if bytes.is_empty() || (bytes.len() > 1 && bytes[0] == b'0') {
        return None;
    }
    match digits(bytes, most) {
        Some(value) => { if value >= least { Some(value) } else { None } }
        None => None,
    }
}

/// The number of an option that may be left out.
fn number_or(word: Option<&str>, least: u32, most: u32, default: u32) -> Option<u32>
    requires { record {
      least : least ≤ default;
      most : default ≤ most;
    } }
    ensures { record {
      value : result ≡ spec.number_or least most default (option_map (λ w. w.now) word.entry);
      least : IfSome result (λ value. least ≤ value);
      most : IfSome result (λ value. value ≤ most);
    } }
{
    match word {
        Some(word) => number(word, least, most),
        None => Some(default),
    }
}

/// How far a run may go.
#[derive(Clone, Copy)]
pub struct Limits {
    /// Steps, from 1 to 1,000,000,000; 1,000,000 where nothing is said.
    pub steps: u32,
    /// Cells of all that is ever made, from 1 to 16,777,216; 1,000,000 where nothing is said.
    pub cells: u32,
    /// Frames at one time, from 1 to 10,000; 1,000 where nothing is said.
    pub frames: u32,
}

/// The limits of a run, from the values of its options: none exactly where one is no number of its range.
pub(crate) fn read_limits(
    steps: Option<&str>,
    cells: Option<&str>,
    frames: Option<&str>,
) -> Option<Limits>
    ensures limits { result ≡ spec.limits_of (option_map (λ w. w.now) steps.entry) (option_map (λ w. w.now) cells.entry) (option_map (λ w. w.now) frames.entry) }
    ensures in_range { IfSome result spec.AreInRange }
{
    let steps = number_or(steps, 1, 1_000_000_000, 1_000_000)?;
    let cells = number_or(cells, 1, 16_777_216, 1_000_000)?;
    let frames = number_or(frames, 1, 10_000, 1_000)?;
    Some(Limits {
        steps,
        cells,
        frames,
    })
}

/// Whether a bound that rests on a sum counts only where the sum is shown to be an int.
#[derive(Clone, Copy)]
pub enum Sums {
    /// It always counts, as in the Checker Framework: what is promised holds up to the first sum that wraps.
    Ideal,
    /// Only there; this is meant where nothing is said.
    Int32,
}

/// How sums count, from the value of the option: none exactly where it is neither `ideal` nor `int32`.
pub(crate) fn read_sums(word: Option<&str>) -> Option<Sums>
    ensures { result ≡ spec.sums_of (option_map (λ w. w.now) word.entry) }
{
    let Some(word) = word else {
        return Some(Sums::Int32);
    };
    if word == "ideal" {
        Some(Sums::Ideal)
    } else if word == "int32" {
        Some(Sums::Int32)
    } else {
        None
    }
}
