// Keys of chosen strings and both servers' shares of them, as lines in hexadecimal.
use crate::hexadecimal::Hexadecimal;
use calls::Refusal;
use numbers::{write_be2, write_be4};
use places::copy;
use std::io;
use std::io::Write;

// The root seeds: the bytes 0 to 15 and 16 to 31.
const SEED0: [u8; 16] = [0, 1, 2, 3, 4, 5, 6, 7, 8, 9, 10, 11, 12, 13, 14, 15];

const SEED1: [u8; 16] = [
    16, 17, 18, 19, 20, 21, 22, 23, 24, 25, 26, 27, 28, 29, 30, 31,
];

// The first query: the prefixes `0` and `1`.
const FIRST: [u8; 8] = [0, 0, 0, 0, 0, 2, 0, 128];

// What was written of the bytes, on a line.
fn beginning<W: Write>(
    printed: &mut W,
    bytes: &[u8],
    written: Result<u64, Refusal>,
) -> io::Result<()> {
    if let Some(part) = bytes.get(..written.unwrap_or(0) as usize) {
        writeln!(printed, "{}", Hexadecimal(part))?;
    }
    Ok(())
}

// The query of the one prefix that is the whole string of n bits.
fn whole_query(n: u64, string: &[u8]) -> [u8; 38] {
    let mut query = [0u8; 38];
    write_be2(&mut query, 0, n.saturating_sub(1));
    write_be4(&mut query, 2, 1);
    copy(string, &mut query, 6);
    query
}

// A key: its expander, its packed string of n bits, and the public share.
#[derive(Clone, Copy)]
struct Key<'a> {
    expander: u64,
    n: u64,
    string: &'a [u8],
    public_share: &'a [u8],
}

impl Key<'_> {
    // One server's share at a query of prefixes of k bits.
    fn share<W: Write>(
        self,
        printed: &mut W,
        server: bool,
        seed: &[u8],
        query: &[u8],
        k: u64,
    ) -> io::Result<()> {
        let mut out = [0u8; 16];
        let written = idpf::share(
            self.n,
            self.expander,
            server,
            seed,
            self.public_share,
            query,
            &mut out,
        );
        write!(
            printed,
            "share {} {} {} {k} ",
            self.expander,
            self.n,
            u64::from(server)
        )?;
        beginning(printed, &out, written)
    }

    // One server's shares at the first query and at the query of the whole string.
    fn shares<W: Write>(self, printed: &mut W, server: bool, seed: &[u8]) -> io::Result<()> {
        self.share(printed, server, seed, &FIRST, 1)?;
        if let Some(query) = whole_query(self.n, self.string).get(..6 + self.string.len()) {
            self.share(printed, server, seed, query, self.n)?;
        }
        Ok(())
    }
}

// The key of a packed string of n bits, and both servers' shares.
fn report<W: Write>(printed: &mut W, expander: u64, n: u64, string: &[u8]) -> io::Result<()> {
    let mut out = [0u8; 6208];
    let written = keymaker::make_key(n, expander, 1, string, &SEED0, &SEED1, &mut out);
    write!(printed, "key {expander} {n} ")?;
    beginning(printed, &out, written)?;
    if let Some(public_share) = out.get(..written.unwrap_or(0) as usize) {
        let key = Key {
            expander,
            n,
            string,
            public_share,
        };
        key.shares(printed, false, &SEED0)?;
        key.shares(printed, true, &SEED1)?;
    }
    Ok(())
}

// The strings of 1, 2, 8 and 9 bits whose bit i is i * i + i / 3 modulo 2.
pub(crate) fn short_strings<W: Write>(printed: &mut W, expander: u64) -> io::Result<()> {
    report(printed, expander, 1, &[0x00])?;
    report(printed, expander, 2, &[0x40])?;
    report(printed, expander, 8, &[0x49])?;
    report(printed, expander, 9, &[0x49, 0x00])
}

// The string of 256 bits by the same rule.
const LONG: [u8; 32] = [
    0x49, 0x24, 0x92, 0x49, 0x24, 0x92, 0x49, 0x24, 0x92, 0x49, 0x24, 0x92, 0x49, 0x24, 0x92, 0x49,
    0x24, 0x92, 0x49, 0x24, 0x92, 0x49, 0x24, 0x92, 0x49, 0x24, 0x92, 0x49, 0x24, 0x92, 0x49, 0x24,
];

pub(crate) fn long_string<W: Write>(printed: &mut W, expander: u64) -> io::Result<()> {
    report(printed, expander, 256, &LONG)
}

// A whole search of that string alone.
pub(crate) fn long_search<W: Write>(printed: &mut W, expander: u64) -> io::Result<()> {
    crate::searches::longest(printed, expander, &LONG, &SEED0, &SEED1)
}

// The key of the string `101` with a weight.
fn weighted_key<W: Write>(printed: &mut W, weight: i16, expander: u64) -> io::Result<()> {
    let mut out = [0u8; 73];
    let written = keymaker::make_key(3, expander, weight, &[0xa0], &SEED0, &SEED1, &mut out);
    write!(printed, "key weight {weight} {expander} 3 ")?;
    beginning(printed, &out, written)
}

// Keys with the least weight, with none and with the greatest, under both expanders.
pub(crate) fn weights<W: Write>(printed: &mut W) -> io::Result<()> {
    for weight in [-32768, 0, 32767] {
        weighted_key(printed, weight, 1)?;
        weighted_key(printed, weight, 2)?;
    }
    Ok(())
}
