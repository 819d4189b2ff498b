// The reports of a sheet: for each line its two root seeds, and the public share that the key maker gives for its string.
// The areas stay beside each other and a place beside them: `make_reports` is lent each on its own, and a report stands at another place in each.
ghost use Rattle.std.specs.Prelude.{◌≡◌, true, ◌+◌, ◌*◌, ◌≤◌, length, drop, pos};
ghost use Rattle.places.specs.Places.{put_at, overlay};
ghost use Rattle.expander.specs.Expander.{is_expander};
ghost use Rattle.point.specs.PublicShare.{public_share_length};
ghost use Rattle.keymaker.specs.Key.{key_outcome};
ghost use Rattle.exam_text.specs.Reader.{are_lines, lines_of, has_line, line_at};
ghost use Rattle.exam_reports.specs.SheetReports.{each_line, public_share_for};

use bits::packed_length;
use exam_reading::{SheetHead, read_line};
use nodes::public_share_length;
use places::write16;

// The public share of a packed string of n bits, with the weight 1, into the places from `at` on.
fn write_key(
    n: u16,
    expander: u64,
    string: &[u8],
    seed0: &[u8],
    seed1: &[u8],
    shares: &mut [u8],
    at: usize,
)
    requires { (at + public_share_length n ≤ length shares.old) × (length (key_outcome n expander (pos 1) string.now seed0.now seed1.now
        (public_share_length n)).written ≡ public_share_length n) }
    ensures { shares.new ≡ put_at shares.old at (key_outcome n expander (pos 1) string.now seed0.now
        seed1.now (public_share_length n)).written }
{
    let end = at + public_share_length(n);
    // What is lent is within the bounds of the call, so it is not refused.
    let _ = keymaker::make_key(
        u64::from(n),
        expander,
        1,
        string,
        seed0,
        seed1,
        &mut shares[at..end],
    );
}

// Report i of a sheet, of the line that begins at place `at` of the text.
fn write_report(
    text: &[u8],
    at: usize,
    sheet: SheetHead,
    i: usize,
    seeds0: &mut [u8],
    seeds1: &mut [u8],
    shares: &mut [u8],
)
    requires le_n { (1 ≤ sheet.n) × (sheet.n ≤ 32) × (is_expander sheet.expander ≡ true) × (has_line sheet.n at text.now ≡ true) }
    requires i_in_bounds { (16 * i + 16 ≤ length seeds0.old) × (16 * i + 16 ≤ length seeds1.old) ×
        (public_share_length sheet.n * i + public_share_length sheet.n ≤ length shares.old) }
    ensures seeds0_after { seeds0.new ≡ put_at seeds0.old (16 * i) (line_at sheet.n at text.now).seed0 }
    ensures seeds1_after { seeds1.new ≡ put_at seeds1.old (16 * i) (line_at sheet.n at text.now).seed1 }
    ensures shares_after { shares.new ≡ put_at shares.old (public_share_length sheet.n * i) (public_share_for sheet.n sheet.expander (line_at sheet.n at text.now)) }
{
    let line = read_line(text, at, sheet.n);
    let end = packed_length(usize::from(sheet.n));
    write16(seeds0, 16 * i, line.seed0);
    write16(seeds1, 16 * i, line.seed1);
    write_key(
        sheet.n,
        sheet.expander,
        &line.string[..end],
        &line.seed0,
        &line.seed1,
        shares,
        public_share_length(sheet.n) * i,
    );
}

// The reports of a sheet, whose lines stand in the text, into the beginnings of the areas.
pub(crate) fn write_reports(
    text: &[u8],
    sheet: SheetHead,
    seeds0: &mut [u8],
    seeds1: &mut [u8],
    shares: &mut [u8],
)
    requires le_n { (1 ≤ sheet.n) × (sheet.n ≤ 32) × (is_expander sheet.expander ≡ true) × (are_lines sheet.n sheet.count (drop sheet.lines text.now) ≡ true) }
    requires count_in_bounds { (16 * sheet.count ≤ length seeds0.old) × (16 * sheet.count ≤ length seeds1.old) ×
        (public_share_length sheet.n * sheet.count ≤ length shares.old) }
    ensures seeds0_after { seeds0.new ≡ overlay (each_line (λ l. l.seed0) (lines_of sheet.n sheet.count (drop sheet.lines text.now))) seeds0.old }
    ensures seeds1_after { seeds1.new ≡ overlay (each_line (λ l. l.seed1) (lines_of sheet.n sheet.count (drop sheet.lines text.now))) seeds1.old }
    ensures shares_after { shares.new ≡ overlay (each_line (public_share_for sheet.n sheet.expander) (lines_of sheet.n sheet.count (drop sheet.lines text.now)))
        shares.old }
{
    let size = usize::from(sheet.n) + 67;
    for i in 0..usize::from(sheet.count) {
        write_report(
            text,
            sheet.lines + i * size,
            sheet,
            i,
            seeds0,
            seeds1,
            shares,
        );
    }
}
