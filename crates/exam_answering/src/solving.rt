// The search of a sheet, and its answer.
ghost use Rattle.std.specs.Prelude.{◌≡◌, true, false, ◌≤◌, length, drop};
ghost use Rattle.places.specs.Places.{overlay};
ghost use Rattle.calls.specs.Outcome.{exit, answered};
ghost use Rattle.exam_lines.specs.Lines.{written_in};
ghost use Rattle.expander.specs.Expander.{is_expander};
ghost use Rattle.tree.specs.SearchRule.{heading_length};
ghost use Rattle.search.specs.Search.{lent};
ghost use Rattle.honest.specs.Honest.{Accepted, record_read, list_read};
ghost use Rattle.exam_text.specs.Sheet.{expander_number};
ghost use Rattle.exam_text.specs.Reader.{is_sheet, sheet_of};
ghost use Rattle.exam_reports.specs.SheetReports.{seeds0_of, seeds1_of, public_shares_of};
ghost use Rattle.exam_text.proofs.Records.{Rounds};
ghost use Rattle.exam_answering.specs.Printing.{printed, round_length};
ghost use Rattle.exam_answering.specs.SheetSearch.{searched_text, search_text};

use crate::printing::print;
use calls::Refusal;
use exam_lines::write_text;
use exam_reading::SheetHead;
use exam_reports::make_reports;
use nodes::public_share_length;

// Prints the queries and totals of the record, and the list, of a search that is accepted; both servers are lent the same public shares.
// The spaces are lent one by one, here and in `print_answer`: a struct of six borrowed arrays would be made once and taken apart at once.
fn search_printed(
    sheet: SheetHead,
    seeds0: &[u8],
    seeds1: &[u8],
    shares: &[u8],
    area: &mut [u8],
    list: &mut [u8],
    out: &mut [u8],
) -> usize
    requires le_n { (1 ≤ sheet.n) × (sheet.n ≤ 32) × Accepted (lent sheet.n false sheet.t sheet.expander seeds0.now shares.now seeds1.now shares.now area.old list.old) }
    requires rounds { Rounds round_length sheet.n (drop heading_length (record_read (lent sheet.n false sheet.t sheet.expander seeds0.now shares.now seeds1.now shares.now area.old
        list.old))) }
    requires list_in_bounds { length (printed sheet.n (record_read (lent sheet.n false sheet.t sheet.expander seeds0.now shares.now seeds1.now shares.now area.old list.old))
        (list_read (lent sheet.n false sheet.t sheet.expander seeds0.now shares.now seeds1.now shares.now area.old list.old))) ≤ length out.old }
    ensures value { result ≡ length (printed sheet.n (record_read (lent sheet.n false sheet.t sheet.expander seeds0.now shares.now seeds1.now
        shares.now area.old list.old)) (list_read (lent sheet.n false sheet.t sheet.expander seeds0.now shares.now
        seeds1.now shares.now area.old list.old))) }
    ensures out_after { out.new ≡ overlay (printed sheet.n (record_read (lent sheet.n false sheet.t sheet.expander seeds0.now shares.now seeds1.now
        shares.now area.old list.old)) (list_read (lent sheet.n false sheet.t sheet.expander seeds0.now shares.now
        seeds1.now shares.now area.old list.old))) out.old }
{
    let SheetHead { n, t, expander, .. } = sheet;
    // A search that is accepted is not refused.
    let Ok(found) = search::search(
        u64::from(n),
        false,
        t,
        expander,
        seeds0,
        shares,
        seeds1,
        shares,
        area,
        list,
    ) else {
        return 0;
    };
    let record_end = found.record as usize;
    let list_end = found.list as usize;
    print(n, &area[..record_end], &list[..list_end], out)
}

// Makes the reports of the sheet of a text, searches them, and prints what is found from the beginning of `out` on. It is lent the space for 32 reports, for a record and for a list.
// What `answer` found of the sheet stays in the clauses, here, in `solve` and in `exam_reports`: `read_sheet` promises a sheet with n = 0 or another expander, too.
fn print_answer(
    text: &[u8],
    sheet: SheetHead,
    seeds0: &mut [u8],
    seeds1: &mut [u8],
    shares: &mut [u8],
    area: &mut [u8],
    list: &mut [u8],
    out: &mut [u8],
) -> usize
    requires text_value { (is_sheet text.now ≡ true) × (1 ≤ sheet.n) × (sheet.n ≤ 32) × (1 ≤ sheet.t) × (sheet.t ≤ 65535) ×
        (is_expander sheet.expander ≡ true) × (sheet.count ≤ 32) }
    requires n_value { (sheet.n ≡ (sheet_of text.now).n) × (sheet.t ≡ (sheet_of text.now).t) ×
        (sheet.expander ≡ expander_number (sheet_of text.now).expander) × (sheet.count ≡ length (sheet_of text.now).lines) }
    requires seeds0_len { (length seeds0.old ≡ 512) × (length seeds1.old ≡ 512) × (length shares.old ≡ 24832) × (length area.old ≡ 19382) ×
        (length list.old ≡ 128) × (length out.old ≡ 43232) }
    ensures seeds0_after { (seeds0.new ≡ overlay (seeds0_of (sheet_of text.now)) seeds0.old)
        × (seeds1.new ≡ overlay (seeds1_of (sheet_of text.now)) seeds1.old)
        × (shares.new ≡ overlay (public_shares_of (sheet_of text.now)) shares.old) }
    ensures value { (result ≡ length (searched_text (sheet_of text.now) area.old list.old)) × (result ≤ 43232) }
    ensures out_after { out.new ≡ overlay (searched_text (sheet_of text.now) area.old list.old) out.old }
{
    make_reports(text, seeds0, seeds1, shares);
    let seeds_end = 16 * (sheet.count as usize);
    let shares_end = public_share_length(sheet.n) * (sheet.count as usize);
    search_printed(
        sheet,
        &seeds0[..seeds_end],
        &seeds1[..seeds_end],
        &shares[..shares_end],
        area,
        list,
        out,
    )
}

// Answers a sheet to which no cause before 11 applies, in space of its own: what is written is printed of the search of the sheet's own reports.
pub(crate) fn solve(text: &[u8], sheet: SheetHead, out: &mut [u8]) -> Result<u64, Refusal>
    requires text_value { (is_sheet text.now ≡ true) × (1 ≤ sheet.n) × (sheet.n ≤ 32) × (1 ≤ sheet.t) × (sheet.t ≤ 65535) ×
        (is_expander sheet.expander ≡ true) × (sheet.count ≤ 32) }
    requires n_value { (sheet.n ≡ (sheet_of text.now).n) × (sheet.t ≡ (sheet_of text.now).t) ×
        (sheet.expander ≡ expander_number (sheet_of text.now).expander) × (sheet.count ≡ length (sheet_of text.now).lines) }
    ensures { answered result out.new ≡ exit (written_in (search_text (sheet_of text.now)) (length out.old)) out.old }
{
    let mut seeds0 = [0u8; 512];
    let mut seeds1 = [0u8; 512];
    let mut shares = [0u8; 24832];
    let mut area = [0u8; 19382];
    let mut list = [0u8; 128];
    let mut printed = [0u8; 43232];
    let end = print_answer(
        text,
        sheet,
        &mut seeds0,
        &mut seeds1,
        &mut shares,
        &mut area,
        &mut list,
        &mut printed,
    );
    write_text(&printed[..end], out)
}
