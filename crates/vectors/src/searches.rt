// Whole searches: examples D to J of the sheet, and the bounds of n and t, as lines.
use crate::hexadecimal::Hexadecimal;
use numbers::write_le8;
use search::Found;
use std::io;
use std::io::Write;

// The first `end` of the bytes, after a space.
fn bytes<W: Write>(printed: &mut W, s: &[u8], end: usize) -> io::Result<()> {
    write!(printed, " ")?;
    if let Some(part) = s.get(..end) {
        write!(printed, "{}", Hexadecimal(part))?;
    }
    Ok(())
}

// A search in which both servers hold the same public shares.
#[derive(Clone, Copy)]
struct Search<'a> {
    n: u64,
    weighted: bool,
    t: u64,
    expander: u64,
    seeds0: &'a [u8],
    seeds1: &'a [u8],
    shares: &'a [u8],
}

impl Search<'_> {
    // What C is told of it.
    fn run(self, record: &mut [u8], list: &mut [u8]) -> Found {
        Found::from(search::search(
            self.n,
            self.weighted,
            self.t,
            self.expander,
            self.seeds0,
            self.shares,
            self.seeds1,
            self.shares,
            record,
            list,
        ))
    }

    // Its line: its label, number, record and list.
    fn show<W: Write>(
        self,
        printed: &mut W,
        label: &str,
        record: &mut [u8],
        list: &mut [u8],
    ) -> io::Result<()> {
        let found = self.run(record, list);
        write!(printed, "search {label} {}", found.number)?;
        bytes(printed, record, found.record_length as usize)?;
        bytes(printed, list, found.list_length as usize)?;
        writeln!(printed)
    }
}

// Root seeds of three reports, which differ in their first bytes.
fn seeds(first: u64) -> [u8; 48] {
    let mut s = [0u8; 48];
    write_le8(&mut s, 0, first);
    write_le8(&mut s, 16, first / 2);
    write_le8(&mut s, 32, first / 3);
    s
}

// The public shares of reports with a weight each, whose strings have 2 bits, each in its place.
fn put_keys(expander: u64, reports: &[(i16, u8)], seeds0: &[u8], seeds1: &[u8], shares: &mut [u8]) {
    let roots = seeds0.chunks_exact(16).zip(seeds1.chunks_exact(16));
    for ((key, (seed0, seed1)), (weight, string)) in shares
        .chunks_exact_mut(49)
        .zip(roots)
        .zip(reports)
    {
        let _ = keymaker::make_key(2, expander, *weight, &[*string], seed0, seed1, key);
    }
}

// A search of three strings of 2 bits with t = 2 and the given room for the record.
fn example<W: Write>(
    printed: &mut W,
    label: &str,
    expander: u64,
    strings: [u8; 3],
    record: &mut [u8],
) -> io::Result<()> {
    let seeds0 = seeds(0xfedcba9876543210);
    let seeds1 = seeds(0x0123456789abcdef);
    let reports = strings.map(|string| (1, string));
    let mut shares = [0u8; 147];
    put_keys(expander, &reports, &seeds0, &seeds1, &mut shares);
    let search = Search {
        n: 2,
        weighted: false,
        t: 2,
        expander,
        seeds0: &seeds0,
        seeds1: &seeds1,
        shares: &shares,
    };
    search.show(printed, label, record, &mut [255u8; 1])
}

// Examples D, E, F and J.
pub(crate) fn examples<W: Write>(printed: &mut W, expander: u64) -> io::Result<()> {
    let mut record = [255u8; 56];
    example(printed, "D", expander, [0x40, 0x40, 0xc0], &mut record)?;
    example(printed, "E", expander, [0x40, 0x40, 0x80], &mut record)?;
    example(printed, "F", expander, [0x40, 0x00, 0xc0], &mut record)?;
    let mut short = [255u8; 55];
    example(printed, "J", expander, [0x40, 0x40, 0xc0], &mut short)?;
    writeln!(printed, "search record area {}", Hexadecimal(&short))
}

// A search of one report of 1 bit under expander 2, with t = 1.
fn one_report<W: Write>(
    printed: &mut W,
    label: &str,
    share: &[u8],
    seed0: [u8; 16],
    seed1: [u8; 16],
) -> io::Result<()> {
    let search = Search {
        n: 1,
        weighted: false,
        t: 1,
        expander: 2,
        seeds0: &seed0,
        seeds1: &seed1,
        shares: share,
    };
    search.show(printed, label, &mut [255u8; 32], &mut [255u8; 2])
}

// Examples H, and I with the payload corrections p − 1 and p.
pub(crate) fn one_bit<W: Write>(printed: &mut W) -> io::Result<()> {
    let string = [0x80];
    let zero = [0u8; 16];
    let mut one = [0u8; 16];
    write_le8(&mut one, 0, 1);
    let mut share = [0u8; 25];
    let _ = keymaker::make_key(1, 2, 1, &string, &zero, &zero, &mut share);
    one_report(printed, "H", &share, zero, zero)?;
    let _ = keymaker::make_key(1, 2, 1, &string, &zero, &one, &mut share);
    write_le8(&mut share, 17, 18446744069414584320);
    one_report(printed, "I p - 1", &share, zero, one)?;
    write_le8(&mut share, 17, 18446744069414584321);
    one_report(printed, "I p", &share, zero, one)
}

// A search of no reports, weighted or not, with room for two totals.
pub(crate) fn bounds<W: Write>(
    printed: &mut W,
    label: &str,
    n: u64,
    weighted: bool,
    t: u64,
) -> io::Result<()> {
    let search = Search {
        n,
        weighted,
        t,
        expander: 2,
        seeds0: &[],
        seeds1: &[],
        shares: &[],
    };
    search.show(printed, label, &mut [255u8; 32], &mut [255u8; 1])
}

// A search of one string of 256 bits, with t = 1: its number, the lengths of its record and list, and the list.
pub(crate) fn longest<W: Write>(
    printed: &mut W,
    expander: u64,
    string: &[u8],
    seed0: &[u8],
    seed1: &[u8],
) -> io::Result<()> {
    let mut share = [0u8; 6208];
    let _ = keymaker::make_key(256, expander, 1, string, seed0, seed1, &mut share);
    let search = Search {
        n: 256,
        weighted: false,
        t: 1,
        expander,
        seeds0: seed0,
        seeds1: seed1,
        shares: &share,
    };
    let mut list = [0u8; 32];
    let found = search.run(&mut [0u8; 14088], &mut list);
    write!(
        printed,
        "search 256 bits {} {}",
        found.number, found.record_length
    )?;
    bytes(printed, &list, found.list_length as usize)?;
    writeln!(printed)
}

// A weighted search of the strings `01`, `01`, `11` and `10`, whose weights are 5, −2, −7 and 4: `0` reaches the threshold 2, and `1` has a negative total.
pub(crate) fn weighted<W: Write>(printed: &mut W) -> io::Result<()> {
    let seeds0 = repeated([1, 3, 5, 7]);
    let seeds1 = repeated([2, 4, 6, 8]);
    let reports = [(5, 0x40), (-2, 0x40), (-7, 0xc0), (4, 0x80)];
    let mut shares = [0u8; 196];
    put_keys(2, &reports, &seeds0, &seeds1, &mut shares);
    let search = Search {
        n: 2,
        weighted: true,
        t: 2,
        expander: 2,
        seeds0: &seeds0,
        seeds1: &seeds1,
        shares: &shares,
    };
    search.show(printed, "weighted", &mut [255u8; 56], &mut [255u8; 1])
}

// Four root seeds, each of one byte repeated.
fn repeated(bytes: [u8; 4]) -> [u8; 64] {
    let mut seeds = [0u8; 64];
    for (seed, byte) in seeds.chunks_exact_mut(16).zip(bytes) {
        seed.fill(byte);
    }
    seeds
}
