// The queries and totals of a search's record, and its list, as text. Each function that writes at a place gives back the place behind what it wrote.
// The place stays beside the space, as in the writers of `exam_lines`, which are handed it.
ghost use Rattle.std.specs.Prelude.{◌≡◌, ◌+◌, ◌*◌, ◌/◌, ◌≤◌, length, take, drop};
ghost use Rattle.numbers.specs.Numbers.{from_little};
ghost use Rattle.bits.specs.Packing.{packed_length, unpack};
ghost use Rattle.places.specs.Places.{put_at, overlay};
ghost use Rattle.query.specs.Query.{prefix_length, prefix_count};
ghost use Rattle.tree.specs.SearchRule.{heading_length};
ghost use Rattle.exam_lines.specs.Lines.{prefix_line};
ghost use Rattle.exam_text.proofs.Records.{Rounds};
ghost use Rattle.exam_answering.specs.Printing.{entry_lines, query_length, round_length, rounds_lines, list_lines, printed};

use bits::packed_length;
use exam_lines::{write_heavy_line, write_prefix_line};
use numbers::read_le8;
use query::{prefix_count, prefix_length};
use tree::HEADING_LENGTH;

// ---- a round of a record

// Writes the line of the prefix of k bits in w bytes from place `from` of a round on, whose total stands from `place` on.
// A round is a query with its totals behind it, so both of its places are counted from its beginning.
fn write_entry(
    round: &[u8],
    k: usize,
    w: usize,
    from: usize,
    place: usize,
    out: &mut [u8],
    at: usize,
) -> usize
    requires w_value { (w ≡ packed_length k) × (from + w ≤ length round.now) × (place + 8 ≤ length round.now) }
    requires round_in_bounds { at + length (prefix_line (unpack k (take w (drop from round.now))) (from_little (take 8 (drop place round.now)))) ≤ length out.old }
    ensures value { result ≡ at + length (prefix_line (unpack k (take w (drop from round.now)))
        (from_little (take 8 (drop place round.now)))) }
    ensures out_after { out.new ≡ put_at out.old at (prefix_line (unpack k (take w (drop from round.now)))
        (from_little (take 8 (drop place round.now)))) }
{
    let end = from + w;
    write_prefix_line(&round[from..end], k, read_le8(round, place), out, at)
}

// Writes the lines of `count` prefixes of k bits, which stand from place 6 of a round on, with their totals from `totals` on.
fn write_entries(
    round: &[u8],
    k: usize,
    count: usize,
    totals: usize,
    out: &mut [u8],
    at: usize,
) -> usize
    requires k_in_bounds { (6 + count * packed_length k ≤ length round.now) × (totals + count * 8 ≤ length round.now) }
    requires round_in_bounds { at + length (entry_lines k count (drop 6 round.now) (drop totals round.now)) ≤ length out.old }
    ensures value { result ≡ at + length (entry_lines k count (drop 6 round.now) (drop totals round.now)) }
    ensures out_after { out.new ≡ put_at out.old at (entry_lines k count (drop 6 round.now) (drop totals round.now)) }
{
    let w = packed_length(k);
    let mut here = at;
    for i in 0..count {
        here = write_entry(round, k, w, 6 + i * w, totals + i * 8, out, here);
    }
    here
}

// How long the query is with which a round begins.
fn query_length(round: &[u8]) -> usize
    requires { query_length round.now ≤ length round.now }
    ensures { result ≡ query_length round.now }
{
    6 + prefix_count(round) * packed_length(prefix_length(round))
}

// Writes the lines of the round with which `rounds` begins.
fn write_round(rounds: &[u8], out: &mut [u8], at: usize) -> usize
    requires rounds_in_bounds { round_length rounds.now ≤ length rounds.now }
    requires rounds_in_bounds_2 { at + length (entry_lines (prefix_length rounds.now) (prefix_count rounds.now) (drop 6 rounds.now)
        (drop (query_length rounds.now) rounds.now)) ≤ length out.old }
    ensures value { result ≡ at + length (entry_lines (prefix_length rounds.now) (prefix_count rounds.now) (drop 6 rounds.now)
        (drop (query_length rounds.now) rounds.now)) }
    ensures out_after { out.new ≡ put_at out.old at (entry_lines (prefix_length rounds.now) (prefix_count rounds.now)
        (drop 6 rounds.now) (drop (query_length rounds.now) rounds.now)) }
{
    let k = prefix_length(rounds);
    let count = prefix_count(rounds);
    let totals = query_length(rounds);
    write_entries(rounds, k, count, totals, out, at)
}

// How long the round is with which `rounds` begins.
fn round_length(rounds: &[u8]) -> usize
    requires { round_length rounds.now ≤ length rounds.now }
    ensures { result ≡ round_length rounds.now }
{
    query_length(rounds) + prefix_count(rounds) * 8
}

// ---- the whole answer

// Writes the lines of at most n rounds.
fn write_rounds(n: usize, rounds: &[u8], out: &mut [u8], at: usize) -> usize
    requires { Rounds round_length n rounds.now × (at + length (rounds_lines n rounds.now) ≤ length out.old) }
    ensures value { result ≡ at + length (rounds_lines n rounds.now) }
    ensures out_after { out.new ≡ put_at out.old at (rounds_lines n rounds.now) }
{
    let mut rest = rounds;
    let mut here = at;
    for _ in 0..n {
        if rest.is_empty() {
            return here;
        }
        here = write_round(rest, out, here);
        rest = &rest[round_length(rest)..];
    }
    here
}

// Writes the lines of a list of heavy strings of n bits.
fn write_list(n: usize, list: &[u8], out: &mut [u8], at: usize) -> usize
    requires { (1 ≤ n) × (at + length (list_lines n (length list.now / packed_length n) list.now) ≤ length out.old) }
    ensures value { result ≡ at + length (list_lines n (length list.now / packed_length n) list.now) }
    ensures out_after { out.new ≡ put_at out.old at (list_lines n (length list.now / packed_length n) list.now) }
{
    let mut here = at;
    for string in list.chunks_exact(packed_length(n)) {
        here = write_heavy_line(string, n, out, here);
    }
    here
}

// Prints a record, from its first query on, and a list for strings of n bits into the beginning of `out`, and gives back how many bytes that is.
pub(crate) fn print(n: u16, record: &[u8], list: &[u8], out: &mut [u8]) -> usize
    requires { (1 ≤ n) × (n ≤ 256) × (heading_length ≤ length «record».now) × Rounds round_length n (drop heading_length «record».now)
        × (length (printed n «record».now list.now) ≤ length out.old) }
    ensures value { result ≡ length (printed n «record».now list.now) }
    ensures out_after { out.new ≡ overlay (printed n «record».now list.now) out.old }
{
    let here = write_rounds(n as usize, &record[HEADING_LENGTH..], out, 0);
    write_list(n as usize, list, out, here)
}
