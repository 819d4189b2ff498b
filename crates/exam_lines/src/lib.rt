// The lines of an answer, and that of a refusal. Every published function answers for all inputs.
// The place stays beside the space: the promises hold for every place, also one behind the end, from which no slice can be taken.
#![tactic(auto)]

ghost use Rattle.std.specs.Prelude.{◌≡◌, length};
ghost use Rattle.places.specs.Places.{put_at};
ghost use Rattle.calls.specs.Outcome.{exit, answered};
ghost use Rattle.fields.specs.Field.{packed_line, place_behind};
ghost use Rattle.exam_lines.specs.Lines.{prefix_line, heavy_line, written_in, refused_outcome};

use crate::answer_lines::{put_heavy_line, put_prefix_line, write_refused};
use calls::Refusal;
use fields::{decimal_length, has_room};
use places::copy;

mod answer_lines;

// Writes a text into the beginning of `out`; refuses with 11 where it does not fit.
pub fn write_text(text: &[u8], out: &mut [u8]) -> Result<u64, Refusal>
    ensures { answered result out.new ≡ exit (written_in text.now (length out.old)) out.old }
{
    if out.len() < text.len() {
        return Err(Refusal::NoSpace);
    }
    copy(text, out, 0);
    Ok(text.len() as u64)
}

// Writes the line `refused` and the number; refuses with 11 where it does not fit.
// It takes any number: `Refusal` would ask more of callers than this public function did.
pub fn refused_line(number: u64, out: &mut [u8]) -> Result<u64, Refusal>
    ensures { answered result out.new ≡ exit (refused_outcome number (length out.old)) out.old }
{
    let size = decimal_length(number) + 9;
    if out.len() < size {
        return Err(Refusal::NoSpace);
    }
    write_refused(number, out);
    Ok(size as u64)
}

// Writes the line of a prefix of k bits and its total at a place, where it has room, and gives back the place behind it.
pub fn write_prefix_line(packed: &[u8], k: usize, total: u64, out: &mut [u8], at: usize) -> usize
    ensures place { result ≡ place_behind out.old at (packed_line (λ s. prefix_line s total) k packed.now) }
    ensures space { out.new ≡ put_at out.old at (packed_line (λ s. prefix_line s total) k packed.now) }
{
    let rest = decimal_length(total) + 2;
    if !has_room(packed.len(), k, rest, out.len(), at) {
        return at;
    }
    put_prefix_line(packed, k, total, out, at)
}

// Writes the line of a heavy string of n bits at a place, where it has room, and gives back the place behind it.
pub fn write_heavy_line(packed: &[u8], n: usize, out: &mut [u8], at: usize) -> usize
    ensures place { result ≡ place_behind out.old at (packed_line heavy_line n packed.now) }
    ensures space { out.new ≡ put_at out.old at (packed_line heavy_line n packed.now) }
{
    if !has_room(packed.len(), n, 7, out.len(), at) {
        return at;
    }
    put_heavy_line(packed, n, out, at)
}
