//! The index of a text, by which a byte offset is turned into a line and a column: where lines begin, and how many characters begin before
//! the end of each block of bytes.
ghost use Rattle.std.specs.Prelude.{◌≡◌, ◌<◌, ◌≤◌, ◌-◌, ◌+◌, length, get_or, take, count_by, true, IfOk};
ghost use Rattle.std.specs.Str.{chars, IsAscii};
ghost use Rattle.irtext_stream.specs.Stream.{IsAt, cut};
ghost use Rattle.irtext_stream.specs.Places.{AtOffset};
ghost use Rattle.irtext_stream.specs.Index.{begins_character, entry_before, AreStarts, AreBlocks, AreLines, BeginUpTo, Indexes};

use crate::position::SourcePosition;
use irtext_memory::{OutOfMemory, vec};
use memchr::memchr;
use std::alloc::Global;

/// Where the lines of a text begin, and how many characters begin before the end of each block of its bytes.
#[derive(Drop)]
pub struct TextIndex {
    // the byte offset at which each line but the first begins
    pub(crate) starts: Vec<usize>,
    // whether each byte is a character, as in an ASCII text
    pub(crate) single: bool,
    // for each whole block, how many characters begin before its end; empty if `single`
    pub(crate) blocks: Vec<usize>,
    // for each multiple of `STRIDE`, how many lines but the first begin at or before it
    pub(crate) lines: Vec<usize>,
}

// in bytes
const BLOCK: usize = 512;

// in bytes
const STRIDE: usize = 128;

/// Whether a character in UTF-8 begins with this byte.
fn begins_character(byte: u8) -> bool
    ensures { result ≡ begins_character byte }
{
    byte < 128 || 192 <= byte
}

/// Returns how many characters begin in these bytes.
fn count_characters(bytes: &[u8]) -> usize
    ensures { result ≡ count_by begins_character bytes.now }
{
    let mut n = 0;
    for i in 0..bytes.len() {
        if begins_character(bytes[i]) {
            n += 1;
        }
    }
    n
}

/// Whether each byte is ASCII. The loop has no exit, so that it is compiled to tests of many bytes at once.
fn is_ascii(bytes: &[u8]) -> bool
    ensures { result ≡ true → IsAscii bytes.now }
{
    let mut ascii = true;
    for byte in bytes {
        ascii = ascii & (*byte < 128);
    }
    ascii
}

/// Returns the byte offset at which each line but the first begins.
fn line_starts(alloc: Global, text: &str) -> Result<Vec<usize>, OutOfMemory>
    ensures { IfOk result (λ starts. AreStarts (chars text.now) starts.items) }
{
    let bytes = text.as_bytes();
    let mut starts = Vec::new(alloc);
    let mut at: usize = 0;
    while let Some(i) = memchr(b'\n', &bytes[at..]) {
        at += i + 1;
        vec::push(&mut starts, at)?;
    }
    Ok(starts)
}

/// Returns, for each whole block, how many characters begin before its end.
fn block_counts(alloc: Global, bytes: &[u8]) -> Result<Vec<usize>, OutOfMemory>
    ensures { IfOk result (λ blocks. AreBlocks bytes.now blocks.items) }
{
    let mut blocks = Vec::new(alloc);
    let mut count: usize = 0;
    let mut at: usize = 0;
    while BLOCK <= bytes.len() - at {
        count += count_characters(&bytes[at..at + BLOCK]);
        vec::push(&mut blocks, count)?;
        at += BLOCK;
    }
    Ok(blocks)
}

/// Returns how many lines but the first begin at or before the offset. At least `least` of them do.
fn line_at(starts: &[usize], least: usize, offset: usize) -> usize
    requires { BeginUpTo starts.now least offset }
    ensures up_to { BeginUpTo starts.now result offset }
    ensures following { result < length starts.now → offset < get_or starts.now result 0 }
{
    let mut line = least;
    while line < starts.len() && starts[line] <= offset {
        line += 1;
    }
    line
}

/// Returns, for each multiple of `STRIDE` up to the number of bytes, how many lines but the first begin at or before it.
fn line_counts(alloc: Global, starts: &[usize], bytes: &[u8]) -> Result<Vec<usize>, OutOfMemory>
    ensures { IfOk result (λ lines. AreLines starts.now (length bytes.now) lines.items) }
{
    let strides = bytes.len() / STRIDE + 1;
    let mut lines = vec::with_capacity_of(alloc, strides, bytes)?;
    let mut line = 0;
    for i in 0..strides {
        line = line_at(starts, line, i * STRIDE);
        vec::push(&mut lines, line)?;
    }
    Ok(lines)
}

/// Returns the entry before index `k`, or 0 if `k` is 0.
fn entry_before(table: &[usize], k: usize) -> usize
    requires { k ≤ length table.now }
    ensures { result ≡ entry_before table.now k }
{
    if k == 0 { 0 } else { table[k - 1] }
}

/// Returns the number of a line or a column that comes after so many others, capped at `i32::MAX`.
fn shown(following: usize) -> i32
    ensures { result ≡ cut (1 + following) }
{
    if following < i32::MAX as usize {
        following as i32 + 1
    } else {
        i32::MAX
    }
}

impl TextIndex {
    /// Builds the index of a text. Fails only if an allocation fails.
    pub(crate) fn new(alloc: Global, text: &str) -> Result<TextIndex, OutOfMemory>
        ensures { IfOk result (λ index. Indexes text.now index) }
    {
        let bytes = text.as_bytes();
        let starts = line_starts(alloc, text)?;
        let lines = line_counts(alloc, &starts, bytes)?;
        if is_ascii(bytes) {
            return Ok(TextIndex {
                starts,
                single: true,
                blocks: Vec::new(alloc),
                lines,
            });
        }
        let blocks = block_counts(alloc, bytes)?;
        Ok(TextIndex {
            starts,
            single: false,
            blocks,
            lines,
        })
    }

    /// Returns how many characters begin before the offset.
    fn characters_before(&self, bytes: &[u8], offset: usize) -> usize
        requires blocks { AreBlocks bytes.now self.now.blocks.items }
        requires within { offset ≤ length bytes.now }
        ensures { result ≡ count_by begins_character (take offset bytes.now) }
    {
        let block = offset / BLOCK;
        entry_before(&self.blocks, block) + count_characters(&bytes[block * BLOCK..offset])
    }

    /// Returns how many characters begin from `start` up to `end`.
    fn characters_between(&self, bytes: &[u8], start: usize, end: usize) -> usize
        requires indexed { Indexes bytes.now self.now }
        requires order { start ≤ end }
        requires within { end ≤ length bytes.now }
        ensures { count_by begins_character (take start bytes.now) + result
            ≡ count_by begins_character (take end bytes.now) }
    {
        if self.single {
            return end - start;
        }
        if end - start < BLOCK {
            return count_characters(&bytes[start..end]);
        }
        self.characters_before(bytes, end) - self.characters_before(bytes, start)
    }

    /// Returns the line and the column of an offset at which a character begins, or of the end of the text.
    pub(crate) fn position(&self, text: &str, offset: usize) -> SourcePosition
        requires indexed { Indexes text.now self.now }
        requires within { offset ≤ length text.now }
        ensures { AtOffset offset (chars text.now) (λ passed rest. IsAt result.line result.column passed) }
    {
        let least = self.lines[offset / STRIDE];
        let line = line_at(&self.starts, least, offset);
        let start = entry_before(&self.starts, line);
        let characters = self.characters_between(text.as_bytes(), start, offset);
        SourcePosition {
            line: shown(line),
            column: shown(characters),
        }
    }
}
