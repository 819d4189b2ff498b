// The first line of a text: `n t C` or `n t C e`.
ghost use Rattle.std.specs.Prelude.{◌≡◌, ◌≤◌, length, drop, is_some, IfSome};
ghost use Rattle.exam_text.specs.Reader.{is_first_line};
ghost use Rattle.exam_text.proofs.Reading.{is_end, EndSays, FirstLineSays};

use crate::fields::{NEWLINE, SPACE, read_field};

// The end of a first line: the count, the expander, and where the next line begins.
#[derive(Clone, Copy)]
struct End {
    count: usize,
    expander: usize,
    lines: usize,
}

// A first line: its four numbers, and where the next line begins.
#[derive(Clone, Copy)]
pub(crate) struct FirstLine {
    pub(crate) n: usize,
    pub(crate) t: usize,
    pub(crate) count: usize,
    pub(crate) expander: usize,
    pub(crate) lines: usize,
}

// The end of a first line, `C` or `C e`, at a place.
// It reads at a place, as `read_field` does.
fn read_end(text: &[u8], at: usize) -> Option<End>
    requires { at ≤ length text.now }
    ensures laid { is_some result ≡ is_end (drop at text.now) }
    ensures says { IfSome result (λ e. EndSays text.now (drop at text.now) e.count e.expander e.lines) }
{
    if let Some(last) = read_field(text, at, NEWLINE) {
        return Some(End {
            count: last.value,
            expander: 2,
            lines: last.behind,
        });
    }
    let count = read_field(text, at, SPACE)?;
    let expander = read_field(text, count.behind, NEWLINE)?;
    Some(End {
        count: count.value,
        expander: expander.value,
        lines: expander.behind,
    })
}

// The first line, `n t C` or `n t C e`.
pub(crate) fn read_first_line(text: &[u8]) -> Option<FirstLine>
    ensures laid { is_some result ≡ is_first_line text.now }
    ensures says { IfSome result (λ l. FirstLineSays text.now l.n l.t l.count l.expander l.lines) }
{
    let n = read_field(text, 0, SPACE)?;
    let t = read_field(text, n.behind, SPACE)?;
    let end = read_end(text, t.behind)?;
    Some(FirstLine {
        n: n.value,
        t: t.value,
        count: end.count,
        expander: end.expander,
        lines: end.lines,
    })
}
