ghost use Rattle.std.specs.Prelude.{◌≡◌, ◌≤◌, ◌<◌, ◌+◌, ◌-◌, ◌^◌, length, IfOk, nat_le, slice_index, take};
ghost use Rattle.std.specs.List.{count_by};
ghost use Rattle.std.specs.List.Sorted.{IsNonDecreasing};
ghost use Rattle.ix_text.specs.Lines as spec;

use std::alloc::{AllocError, Global};
use std::marker::Model;

/// How many bytes a block has. Characters are counted ahead for whole blocks.
const BLOCK: usize = 64;

/// The lines of a text. It holds a copy of the text, and a clause sees that text.
///
/// It takes the text's own length once more, four bytes for each line and one for each sixteen bytes of text.
#[derive(Drop)]
pub struct LineMap {
    text: Vec<u8>,
    line_starts: Vec<u32>,
    block_counts: Vec<u32>,
}

impl Model for LineMap {
    ghost use Rattle.std.specs.Prelude.{◌≡◌, ◌<◌, ◌+◌, ◌^◌, ℕ, List as Elements, length};
    ghost use Rattle.ix_text.specs.Lines as spec;

    ghost Value = { Elements ℕ };

    ghost view = { λ lines. lines.text.items };

    ghost invariant = { λ lines. (lines.line_starts.items ≡ spec.line_starts lines.text.items) × (lines.block_counts.items ≡ spec.block_counts lines.text.items) × (length lines.text.items + 1 < 2 ^ 32) };
}

fn starts_line(text: &[u8], at: usize) -> bool
    requires { at ≤ length text.now }
    ensures { result ≡ spec.starts_line text.now at }
{
    if at == 0 {
        return true;
    }
    match text[at - 1] {
        b'\n' => true,
        b'\r' => at == text.len() || text[at] != b'\n',
        _ => false,
    }
}

fn line_starts(alloc: Global, text: &[u8]) -> Result<Vec<u32>, AllocError>
    requires { length text.now + 1 < 2 ^ 32 }
    ensures { IfOk result (λ starts. starts.items ≡ spec.line_starts text.now) }
{
    let mut starts = Vec::new(alloc);
    for at in 0..text.len() + 1 {
        if starts_line(text, at) {
            starts.push(at as u32)?;
        }
    }
    Ok(starts)
}

fn characters(bytes: &[u8]) -> usize
    ensures { record {
      value : result ≡ spec.characters bytes.now;
      within : result ≤ length bytes.now;
    } }
{
    bytes
        .iter()
        .filter(|byte| !(0x80 <= **byte && **byte <= 0xBF))
        .count()
}

fn block_counts(alloc: Global, text: &[u8]) -> Result<Vec<u32>, AllocError>
    requires { length text.now + 1 < 2 ^ 32 }
    ensures { IfOk result (λ counts. counts.items ≡ spec.block_counts text.now) }
{
    let mut counts = Vec::new(alloc);
    let mut before = 0;
    for block in 0..text.len() / BLOCK {
        counts.push(before)?;
        before += characters(&text[block * BLOCK..(block + 1) * BLOCK]) as u32;
    }
    counts.push(before)?;
    Ok(counts)
}

/// How many lines start at or before a place, and so the number of its line.
fn lines_up_to(starts: &[u32], at: u32) -> usize
    requires { IsNonDecreasing starts.now }
    ensures value { result ≡ count_by (λ start. nat_le start at) starts.now }
    ensures within { result ≤ length starts.now }
    ensures before { 0 < result → slice_index starts.now (result - 1) ≤ at }
{
    starts.partition_point(|start| *start <= at)
}

fn characters_before(text: &[u8], counts: &[u32], at: usize) -> usize
    requires { record {
      within : at ≤ length text.now;
      counted : counts.now ≡ spec.block_counts text.now;
    } }
    ensures { result ≡ spec.characters (take at text.now) }
{
    let block = at / BLOCK;
    counts[block] as usize + characters(&text[block * BLOCK..at])
}

impl LineMap {
    /// The lines of a text. The one error is want of memory.
    pub fn new(alloc: Global, text: &[u8]) -> Result<LineMap, AllocError>
        requires { length text.now + 1 < 2 ^ 32 }
        ensures { IfOk result (λ lines. lines ≡ text.now) }
    {
        let line_starts = line_starts(alloc, text)?;
        let block_counts = block_counts(alloc, text)?;
        let text = text.to_vec(alloc)?;
        Ok(LineMap {
            text,
            line_starts,
            block_counts,
        })
    }

    /// The line and the column of the place `at`, which may be the end of the text, both counted from 1.
    ///
    /// A line ends after LF, or after a CR that no LF follows. The column is one more than the number of characters of the line before
    /// the place. It takes a binary search among the lines and the count of at most two blocks of 64 bytes, however long a line is.
    pub fn place(&self, at: u32) -> (u32, u32)
        requires { at ≤ length self.now }
        ensures { result ≡ spec.place self.now at }
    {
        let line = lines_up_to(&self.line_starts, at);
        let start = self.line_starts[line - 1] as usize;
        let before_line = characters_before(&self.text, &self.block_counts, start);
        let before = characters_before(&self.text, &self.block_counts, at as usize);
        (line as u32, (1 + before - before_line) as u32)
    }
}
