// The lines behind the first one: whether they are laid out as strings and seeds.
ghost use Rattle.std.specs.Prelude.{◌≡◌, ◌&&◌, ◌*◌, ◌≤◌, eqb, get_or, length, take};
ghost use Rattle.exam_text.specs.Reader.{is_hex, are_bits, are_hex, line_length, is_line, are_lines, has_line};

// Whether each character is `0` or `1`.
fn are_bits(characters: &[u8]) -> bool
    ensures { result ≡ are_bits characters.now }
{
    characters.iter().all(|c| *c == b'0' || *c == b'1')
}

// Whether a character is a lower-case hexadecimal digit.
fn is_hex(c: u8) -> bool
    ensures { result ≡ is_hex c }
{
    matches!(c, b'0'..=b'9' | b'a'..=b'f')
}

// Whether each character is such a digit.
fn are_hex(characters: &[u8]) -> bool
    ensures { result ≡ are_hex characters.now }
{
    characters.iter().all(|c| is_hex(*c))
}

// How long a line is for strings of n bits: the string, two seeds of 32 digits, two spaces and the newline.
pub(crate) fn line_length(n: usize) -> usize
    requires { n ≤ 32 }
    ensures { result ≡ line_length n }
{
    n + 67
}

// Whether a part of a line is the 32 digits of a seed and the character `then` behind them.
fn seed_then(part: &[u8], then: u8) -> bool
    requires { length part.now ≡ 33 }
    ensures { result ≡ (are_hex (take 32 part.now) && eqb (get_or part.now 32 0) then) }
{
    are_hex(&part[..32]) && part[32] == then
}

// Whether a line is laid out for strings of n bits.
fn is_line(line: &[u8], n: usize) -> bool
    requires { length line.now ≡ line_length n }
    ensures { result ≡ is_line n line.now }
{
    are_bits(&line[..n])
        && line[n] == b' '
        && seed_then(&line[n + 1..n + 34], b' ')
        && seed_then(&line[n + 34..n + 67], b'\n')
}

// Whether a text is `count` lines for strings of n bits and nothing after them.
pub(crate) fn are_lines(text: &[u8], n: usize, count: usize) -> bool
    requires { (n ≤ 32) × (count ≤ 32) }
    ensures { result ≡ are_lines n count text.now }
{
    if text.len() != count * line_length(n) {
        return false;
    }
    text.chunks_exact(line_length(n))
        .all(|line| is_line(line, n))
}

// Whether a line for strings of n bits, at most 32, stands at a place.
// The place may be any, as that of `read_line`.
pub(crate) fn has_line(text: &[u8], at: usize, n: usize) -> bool
    ensures { result ≡ has_line n at text.now }
{
    if 32 < n || text.len() < at || text.len() - at < line_length(n) {
        return false;
    }
    is_line(&text[at..at + line_length(n)], n)
}
