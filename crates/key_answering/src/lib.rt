// What the program `key` prints for its line.
#![tactic(auto)]

ghost use Rattle.std.specs.Prelude.{◌≡◌, true, ◌≤◌, length, IfOk, Some};
ghost use Rattle.places.specs.Places.{overlay};
ghost use Rattle.bits.specs.Packing.{pack};
ghost use Rattle.calls.specs.Causes.{number_due};
ghost use Rattle.calls.specs.Outcome.{exit, answered};
ghost use Rattle.calls.specs.Refusals.{number_in};
ghost use Rattle.expander.specs.Expander.{choice_of};
ghost use Rattle.exam_text.specs.Reader.{has_line, line_at};
ghost use Rattle.exam_text.specs.KeyLine.{is_key_line, KeyLineSays};
ghost use Rattle.exam_lines.specs.Lines.{written_in};
ghost use Rattle.key_answering.specs.KeyPage.{page, page_space};
ghost use Rattle.key_answering.specs.KeyAnswer.{key_line_causes, line_page, respond_outcome};

use crate::key::Key;
use bits::packed_length;
use calls::Refusal;
use exam_lines::{refused_line, write_text};
use exam_reading::{KeyHead, read_key_line, read_line};
use expander::Expander;
use nodes::public_share_length;

mod key;
mod lines;
mod page;

// Makes the public share of the line of a key, with the weight 1, under its expander, and writes its page into the beginning of `out`.
fn print_line(text: &[u8], head: KeyHead, e: Expander, share: &mut [u8], out: &mut [u8]) -> usize
    requires le_n { (1 ≤ head.n) × (head.n ≤ 32) × (choice_of head.expander ≡ Some e) × (has_line head.n head.place text.now ≡ true) }
    requires share_len { (length share.old ≡ 776) × (page_space ≤ length out.old) }
    ensures value { (result ≡ length (line_page head.n (line_at head.n head.place text.now) e)) × (result ≤ page_space) }
    ensures out_after { out.new ≡ overlay (line_page head.n (line_at head.n head.place text.now) e) out.old }
{
    let n = head.n;
    let line = read_line(text, head.place, n);
    let end = packed_length(n as usize);
    let packed = &line.string[..end];
    // A line that stands there is within the bounds of the call, so it is not refused.
    let _ = keymaker::make_key(
        n as u64,
        head.expander,
        1,
        packed,
        &line.seed0,
        &line.seed1,
        share,
    );
    let size = public_share_length(n);
    let key = Key {
        e,
        n,
        string: packed,
        seed0: line.seed0,
        seed1: line.seed1,
        share: &share[..size],
    };
    key.write_page(out)
}

// Writes the page of the line of a key; refuses with 11 where it does not fit.
fn print(text: &[u8], head: KeyHead, e: Expander, out: &mut [u8]) -> Result<u64, Refusal>
    requires { (1 ≤ head.n) × (head.n ≤ 32) × (choice_of head.expander ≡ Some e) × (has_line head.n head.place text.now ≡ true) }
    ensures { answered result out.new ≡ exit (written_in (line_page head.n (line_at head.n head.place text.now) e) (length out.old)) out.old }
{
    let mut share = [0u8; 776];
    let mut printed = [0u8; 10425];
    let end = print_line(text, head, e, &mut share, &mut printed);
    write_text(&printed[..end], out)
}

// What the line of a key says, and its expander; refuses with 10, 1 or 3.
fn judge(text: &[u8]) -> Result<(KeyHead, Expander), Refusal>
    ensures number { number_in result ≡ number_due (key_line_causes text.now) }
    ensures said { IfOk result (λ r. (is_key_line text.now ≡ true) × KeyLineSays text.now r.0.n r.0.expander r.0.place × (1 ≤ r.0.n) × (choice_of r.0.expander ≡ Some r.1)) }
{
    let Some(head) = read_key_line(text) else {
        return Err(Refusal::Text);
    };
    if head.n == 0 {
        return Err(Refusal::StringLength);
    }
    // No `?`: each refusal is named beside its test.
    let Ok(e) = Expander::try_from(head.expander) else {
        return Err(Refusal::Expander);
    };
    Ok((head, e))
}

// Writes the whole output for a text: the page of its line, or the line of the refusal; refuses with 11 where it does not fit.
pub fn respond(text: &[u8], out: &mut [u8]) -> Result<u64, Refusal>
    ensures { answered result out.new ≡ exit (respond_outcome text.now (length out.old)) out.old }
{
    match judge(text) {
        Ok((head, e)) => print(text, head, e, out),
        Err(refusal) => refused_line(refusal.number(), out),
    }
}
