// Exam texts read: whether a text is that of a sheet, the numbers of its first line, and its lines one by one; and the line of a key.
#![tactic(auto)]

ghost use Rattle.std.specs.Prelude.{◌≡◌, true, length, is_some, IfSome};
ghost use Rattle.bits.specs.Packing.{pack_in};
ghost use Rattle.exam_text.specs.Reader.{line_length, is_line, line_of, is_sheet, SheetSays, line_at};
ghost use Rattle.exam_text.specs.KeyLine.{is_key_line, KeyLineSays};

use crate::fields::{SPACE, read_field};
use crate::first_line::read_first_line;
use crate::lines::{are_lines, has_line, line_length};
use crate::parts::{read_seed, read_string};

mod fields;
mod first_line;
mod lines;
mod parts;

// What the text of a sheet says on its first line, and where its other lines begin.
#[derive(Clone, Copy)]
pub struct SheetHead {
    pub n: u16,
    pub t: u64,
    pub count: u16,
    pub expander: u64,
    pub lines: usize,
}

// A line: its string, packed into four bytes, and its two root seeds.
#[derive(Clone, Copy)]
pub struct LineRead {
    pub string: [u8; 4],
    pub seed0: [u8; 16],
    pub seed1: [u8; 16],
}

// What the text of a key line says: its two numbers, and the place of its string and seeds.
#[derive(Clone, Copy)]
pub struct KeyHead {
    pub n: u16,
    pub expander: u64,
    pub place: usize,
}

// Reads the text of a sheet: its first line.
pub fn read_sheet(text: &[u8]) -> Option<SheetHead>
    ensures sheet { is_some result ≡ is_sheet text.now }
    ensures says { IfSome result (λ s. SheetSays text.now s.n s.t s.count s.expander s.lines) }
{
    if 4096 < text.len() {
        return None;
    }
    let first = read_first_line(text)?;
    if 32 < first.n {
        return None;
    }
    if 32 < first.count {
        return None;
    }
    if !are_lines(&text[first.lines..], first.n, first.count) {
        return None;
    }
    Some(SheetHead {
        n: first.n as u16,
        t: first.t as u64,
        count: first.count as u16,
        expander: first.expander as u64,
        lines: first.lines,
    })
}

// What a line for strings of n bits says.
fn read_parts(line: &[u8], n: usize) -> LineRead
    requires { (length line.now ≡ line_length n) × (is_line n line.now ≡ true) }
    ensures string { result.string ≡ pack_in 4 (line_of n line.now).string }
    ensures seeds { (result.seed0 ≡ (line_of n line.now).seed0) × (result.seed1 ≡ (line_of n line.now).seed1) }
{
    LineRead {
        string: read_string(&line[..n]),
        seed0: read_seed(&line[n + 1..n + 33]),
        seed1: read_seed(&line[n + 34..n + 66]),
    }
}

// The line for strings of n bits, at most 32, that stands at a place of a text; all 0 where none does.
// It answers no Option: a public function that could not fail still can't.
pub fn read_line(text: &[u8], at: usize, n: u16) -> LineRead
    ensures string { result.string ≡ pack_in 4 (line_at n at text.now).string }
    ensures seeds { (result.seed0 ≡ (line_at n at text.now).seed0) × (result.seed1 ≡ (line_at n at text.now).seed1) }
{
    let bits = usize::from(n);
    if !has_line(text, at, bits) {
        return LineRead {
            string: [0u8; 4],
            seed0: [0u8; 16],
            seed1: [0u8; 16],
        };
    }
    read_parts(&text[at..at + line_length(bits)], bits)
}

// Reads the text of a key: its two numbers, and where its string and seeds stand.
pub fn read_key_line(text: &[u8]) -> Option<KeyHead>
    ensures key { is_some result ≡ is_key_line text.now }
    ensures says { IfSome result (λ k. KeyLineSays text.now k.n k.expander k.place) }
{
    let n = read_field(text, 0, SPACE)?;
    let expander = read_field(text, n.behind, SPACE)?;
    if 32 < n.value {
        return None;
    }
    if !are_lines(&text[expander.behind..], n.value, 1) {
        return None;
    }
    Some(KeyHead {
        n: n.value as u16,
        expander: expander.value as u64,
        place: expander.behind,
    })
}
