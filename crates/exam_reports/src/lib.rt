// The reports of an exam sheet: both servers' root seeds, and the public shares.
#![tactic(auto)]

ghost use Rattle.std.specs.Prelude.{◌≡◌, ◌&&◌, ◌*◌, ◌≤◌, leb};
ghost use Rattle.point.specs.PublicShare.{public_share_length};
ghost use Rattle.exam_text.specs.Reader.{read_sheet};
ghost use Rattle.exam_reports.specs.SheetReports.{made_with, reports_made};

use crate::reports::write_reports;
use exam_reading::read_sheet;
use nodes::public_share_length;

mod reports;

// Whether the root seeds and the public shares of `count` reports for strings of n bits fit into areas of these lengths.
fn fit(n: u16, count: u16, room0: usize, room1: usize, room: usize) -> bool
    requires { (n ≤ 32) × (count ≤ 32) }
    ensures { result ≡ (leb (16 * count) room0 && (leb (16 * count) room1 && leb (public_share_length n * count) room)) }
{
    let seeds = 16 * usize::from(count);
    seeds <= room0 && seeds <= room1 && public_share_length(n) * usize::from(count) <= room
}

// Makes the reports of the sheet that a text is, with the sheet's own expander and root seeds, and tells whether it did: it writes nothing where the text
// is no sheet's, n is 0, the expander is not 1 or 2, or an area is too small.
pub fn make_reports(text: &[u8], seeds0: &mut [u8], seeds1: &mut [u8], shares: &mut [u8]) -> bool
    ensures { made_with result seeds0.new seeds1.new shares.new
        ≡ reports_made (read_sheet text.now) seeds0.old seeds1.old shares.old }
{
    let Some(sheet) = read_sheet(text) else {
        return false;
    };
    if sheet.n == 0 {
        return false;
    }
    if !expander::is_expander(sheet.expander) {
        return false;
    }
    if !fit(
        sheet.n,
        sheet.count,
        seeds0.len(),
        seeds1.len(),
        shares.len(),
    ) {
        return false;
    }
    write_reports(text, sheet, seeds0, seeds1, shares);
    true
}
