// Exam text in, answer text out.
#![tactic(auto)]

ghost use Rattle.std.specs.Prelude.{◌≡◌};
ghost use Rattle.calls.specs.Outcome.{answered};
ghost use Rattle.exam_answering.specs.Exam.{exam_exit, respond_exit};

use crate::solving::solve;
use calls::Refusal;
use exam_lines::refused_line;
use exam_reading::read_sheet;

mod printing;
mod solving;

// Answers an exam text: a line for each queried prefix, then the heavy strings; refuses with 10, 1, 2, 3 or 11.
pub fn answer(text: &[u8], out: &mut [u8]) -> Result<u64, Refusal>
    ensures { answered result out.new ≡ exam_exit text.now out.old }
{
    let Some(sheet) = read_sheet(text) else {
        return Err(Refusal::Text);
    };
    let no_bits = sheet.n < 1;
    let outside = calls::threshold_outside(false, sheet.t);
    let known = expander::is_expander(sheet.expander);
    if no_bits {
        return Err(Refusal::StringLength);
    }
    if outside {
        return Err(Refusal::Threshold);
    }
    if !known {
        return Err(Refusal::Expander);
    }
    solve(text, sheet, out)
}

// Writes the whole output for an exam text: the answer, or the line of the refusal; refuses with 11 where it does not fit.
pub fn respond(text: &[u8], out: &mut [u8]) -> Result<u64, Refusal>
    ensures { answered result out.new ≡ respond_exit text.now out.old }
{
    match answer(text, out) {
        Ok(length) => Ok(length),
        Err(Refusal::NoSpace) => Err(Refusal::NoSpace),
        Err(refusal) => refused_line(refusal.number(), out),
    }
}
