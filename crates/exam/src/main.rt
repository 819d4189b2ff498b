// The exam program: an exam text on standard input, its answer on standard output.
#![tactic(auto)]

ghost use Rattle.std.specs.Prelude.{◌≤◌, ◌≡◌, length, take};
ghost use Rattle.exam_answering.specs.Exam.{output, answer_space};
ghost use Rattle.exam_answering.proofs.Outputs.{cut_output};
ghost use Rattle.streams.specs.Prefix.{IsPrefixLen};

use streams::Program;

// The whole output for an exam text at the beginning of `out`, and how many bytes it has.
fn reply(text: &[u8], out: &mut [u8]) -> usize
    requires { answer_space ≤ length out.old }
    ensures { IsPrefixLen result out.new × (take result out.new ≡ output text.now) }
{
    let length = exam_answering::respond(text, out).unwrap_or(0);
    length as usize
}

// What it answers to a text.
struct Exam;

impl Program for Exam {
    ghost output = { output };

    fn respond(text: &[u8], out: &mut [u8; 65536]) -> usize {
        reply(text, out)
    }

    ghost cut = { cut_output };
}

fn main(rt: HostRuntime) {
    if let Err(failure) = streams::serve::<Exam, _, _>(&mut rt.stdin(), &mut rt.stdout()) {
        let _ = eprintln!(rt; "exam: {failure}");
    }
}
