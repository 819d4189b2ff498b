// The key program: a line `n e string seed0 seed1` on standard input, the page of its key on standard output.
#![tactic(auto)]

ghost use Rattle.std.specs.Prelude.{◌≤◌, ◌≡◌, length, take};
ghost use Rattle.std.proofs.Common.{arith};
ghost use Rattle.key_answering.specs.KeyAnswer.{key_output};
ghost use Rattle.key_answering.specs.KeyPage.{page_space};
ghost use Rattle.key_answering.proofs.KeyOutputs.{key_cut_output};
ghost use Rattle.streams.specs.Prefix.{IsPrefixLen};

use streams::Program;

// The whole output for a text at the beginning of `out`, and how many bytes it has.
fn reply(text: &[u8], out: &mut [u8]) -> usize
    requires { page_space ≤ length out.old }
    ensures { IsPrefixLen result out.new × (take result out.new ≡ key_output text.now) }
{
    let length = key_answering::respond(text, out).unwrap_or(0);
    length as usize
}

// What it answers to a text.
struct Key;

impl Program for Key {
    ghost output = { key_output };

    fn respond(text: &[u8], out: &mut [u8; 65536]) -> usize {
        reply(text, out)
    }

    ghost cut = { λ m more bytes. key_cut_output m (Prim.omega (arith, more)) bytes };
}

fn main(rt: HostRuntime) {
    if let Err(failure) = streams::serve::<Key, _, _>(&mut rt.stdin(), &mut rt.stdout()) {
        let _ = eprintln!(rt; "key: {failure}");
    }
}
