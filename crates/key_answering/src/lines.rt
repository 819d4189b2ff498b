// The lines of a page. Each function gives back the place behind what it wrote.
// The place stays beside the space, as in the writers of `fields`, which are handed it.
ghost use Rattle.std.specs.Prelude.{◌≡◌, ◌+◌, ◌≤◌, length};
ghost use Rattle.places.specs.Places.{put_at};
ghost use Rattle.bits.specs.Packing.{packed_length, unpack};
ghost use Rattle.nodes.specs.NodeLayout.{correction_of};
ghost use Rattle.point.specs.PublicShare.{read_correction};
ghost use Rattle.key_answering.specs.KeyPage.{control_line, correction_text, level_line, shares_line};

use fields::{write_hex, write_number, write_string, write_word};
use nodes::Correction;
use numbers::write_le8;
use walk::read_correction;

// What stands between two fields of a line.
const SPACE: u8 = b' ';

// What ends a line.
const NEWLINE: u8 = b'\n';

// The word `control`.
const CONTROL: [u8; 7] = *b"control";

// The word `level`.
const LEVEL: [u8; 5] = *b"level";

// Writes the line of the control bytes.
pub(crate) fn write_control(bytes: &[u8], out: &mut [u8], at: usize) -> usize
    requires { at + length (control_line bytes.now) ≤ length out.old }
    ensures value { result ≡ at + length (control_line bytes.now) }
    ensures out_after { out.new ≡ put_at out.old at (control_line bytes.now) }
{
    let here = write_word(&CONTROL, SPACE, out, at);
    write_hex(bytes, NEWLINE, out, here)
}

// Writes the seed correction and the payload correction of a correction word.
fn write_correction(word: Correction, out: &mut [u8], at: usize) -> usize
    requires { at + length (correction_text (correction_of word)) ≤ length out.old }
    ensures value { result ≡ at + length (correction_text (correction_of word)) }
    ensures out_after { out.new ≡ put_at out.old at (correction_text (correction_of word)) }
{
    let seed = word.seed;
    let mut payload = [0u8; 8];
    write_le8(&mut payload, 0, word.payload);
    let here = write_hex(&seed, SPACE, out, at);
    write_hex(&payload, NEWLINE, out, here)
}

// Writes the line of level k, of n, of a public share.
pub(crate) fn write_level(share: &[u8], n: u16, k: u16, out: &mut [u8], at: usize) -> usize
    requires { at + length (level_line k (read_correction n share.now k)) ≤ length out.old }
    ensures value { result ≡ at + length (level_line k (read_correction n share.now k)) }
    ensures out_after { out.new ≡ put_at out.old at (level_line k (read_correction n share.now k)) }
{
    let word = read_correction(share, n, k);
    let mut here = write_word(&LEVEL, SPACE, out, at);
    here = write_number(u64::from(k) + 1, SPACE, out, here);
    here = write_number(u64::from(word.left), SPACE, out, here);
    here = write_number(u64::from(word.right), SPACE, out, here);
    write_correction(word, out, here)
}

// Writes a word, the prefix of k bits that is packed, both servers' shares at it, and their sum.
// Each argument is a field of the line.
pub(crate) fn write_shares(
    word: &[u8],
    packed: &[u8],
    k: usize,
    share0: u64,
    share1: u64,
    out: &mut [u8],
    at: usize,
) -> usize
    requires { (length packed.now ≡ packed_length k) × (at + length (shares_line word.now (unpack k packed.now) share0 share1) ≤ length out.old) }
    ensures value { result ≡ at + length (shares_line word.now (unpack k packed.now) share0 share1) }
    ensures out_after { out.new ≡ put_at out.old at (shares_line word.now (unpack k packed.now) share0 share1) }
{
    let mut here = write_word(word, SPACE, out, at);
    here = write_string(packed, k, SPACE, out, here);
    here = write_number(share0, SPACE, out, here);
    here = write_number(share1, SPACE, out, here);
    write_number(group::add(share0, share1), NEWLINE, out, here)
}
