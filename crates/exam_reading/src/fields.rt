// The decimal fields of a first line or of a key line: a number of one to five digits and the character behind it.
// A field is read at a place and not from a slice: what is behind it is told as a place of the whole text.
ghost use Rattle.std.specs.Prelude.{◌≡◌, true, ◌≤◌, ◌<◌, length, drop, is_some, IfSome};
ghost use Rattle.std.specs.List.{list_all};
ghost use Rattle.exam_text.specs.Reader.{is_decimal, leading, is_number, number_then, number_after};
ghost use Rattle.exam_text.proofs.Reading.{FieldSays};

// What stands between two fields.
pub(crate) const SPACE: u8 = b' ';

// What ends a line.
pub(crate) const NEWLINE: u8 = b'\n';

// A field: its number, and the place behind the character that ends it.
#[derive(Clone, Copy)]
pub(crate) struct Field {
    pub(crate) value: usize,
    pub(crate) behind: usize,
}

// How many digits a text begins with.
fn digits_length(text: &[u8]) -> usize
    ensures { result ≡ length (leading text.now) }
{
    text.iter().take_while(|c| c.is_ascii_digit()).count()
}

// Whether digits are laid out as a number.
fn is_number(digits: &[u8]) -> bool
    ensures { result ≡ is_number digits.now }
{
    match digits.len() {
        1 => true,
        2..=5 => digits[0] != b'0',
        _ => false,
    }
}

// The number that at most five digits are.
fn number_of(digits: &[u8]) -> usize
    requires { (length digits.now ≤ 5) × (list_all is_decimal digits.now ≡ true) }
    ensures { result ≡ number_after 0 digits.now }
{
    let mut x = 0;
    for c in digits {
        x = 10 * x + usize::from(*c - b'0');
    }
    x
}

// The field at a place that the character `then` ends.
pub(crate) fn read_field(text: &[u8], at: usize, then: u8) -> Option<Field>
    requires { (at ≤ length text.now) × (0 < then) }
    ensures laid { is_some result ≡ number_then then (drop at text.now) }
    ensures says { IfSome result (λ f. FieldSays text.now (drop at text.now) f.value f.behind) }
{
    let rest = &text[at..];
    let size = digits_length(rest);
    let digits = &rest[..size];
    if !is_number(digits) {
        return None;
    }
    match rest.get(size) {
        Some(c) if *c == then => Some(Field {
            value: number_of(digits),
            behind: at + size + 1,
        }),
        _ => None,
    }
}
