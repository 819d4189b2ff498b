// The lines of an answer, and that of a refusal. Each function that writes at a place gives back the place behind what it wrote.
// The place stays beside the space, as in the writers of `fields`, which are handed it.
ghost use Rattle.std.specs.Prelude.{◌≡◌, ◌+◌, ◌≤◌, length};
ghost use Rattle.bits.specs.Packing.{packed_length, unpack};
ghost use Rattle.places.specs.Places.{put_at, overlay};
ghost use Rattle.exam_lines.specs.Lines.{prefix_line, heavy_line, refused_text};

use fields::{write_number, write_string, write_word};

// What stands between two fields of a line.
const SPACE: u8 = b' ';

// What ends a line.
const NEWLINE: u8 = b'\n';

// The word `heavy`.
const HEAVY: [u8; 5] = *b"heavy";

// The word `refused`.
const REFUSED: [u8; 7] = *b"refused";

// Writes the line of a prefix of k bits and its total.
pub(crate) fn put_prefix_line(
    packed: &[u8],
    k: usize,
    total: u64,
    out: &mut [u8],
    at: usize,
) -> usize
    requires { (length packed.now ≡ packed_length k) × (at + length (prefix_line (unpack k packed.now) total) ≤ length out.old) }
    ensures value { result ≡ at + length (prefix_line (unpack k packed.now) total) }
    ensures out_after { out.new ≡ put_at out.old at (prefix_line (unpack k packed.now) total) }
{
    let here = write_string(packed, k, SPACE, out, at);
    write_number(total, NEWLINE, out, here)
}

// Writes the line of a heavy string of n bits.
pub(crate) fn put_heavy_line(packed: &[u8], n: usize, out: &mut [u8], at: usize) -> usize
    requires { (length packed.now ≡ packed_length n) × (at + length (heavy_line (unpack n packed.now)) ≤ length out.old) }
    ensures value { result ≡ at + length (heavy_line (unpack n packed.now)) }
    ensures out_after { out.new ≡ put_at out.old at (heavy_line (unpack n packed.now)) }
{
    let here = write_word(&HEAVY, SPACE, out, at);
    write_string(packed, n, NEWLINE, out, here)
}

// Writes the line of a refusal into the beginning of `out`.
pub(crate) fn write_refused(number: u64, out: &mut [u8])
    requires { length (refused_text number) ≤ length out.old }
    ensures { out.new ≡ overlay (refused_text number) out.old }
{
    let here = write_word(&REFUSED, SPACE, out, 0);
    write_number(number, NEWLINE, out, here);
}
