// Answers each exam text of the folder `data` that an argument names: its name, the number, and the answer.
#![tactic(auto)]

use std::io::Write;
use std::{env, fs, io};
use streams::{Cut, read_text};

// Writes the number for an exam text, and the answer behind it.
fn show<W: Write>(text: &[u8], printed: &mut W) -> io::Result<()> {
    let mut out = [0u8; 65536];
    match exam_answering::answer(text, &mut out) {
        Ok(length) => {
            writeln!(printed, "0")?;
            printed.write_all(&out[..length as usize])
        }
        Err(refusal) => writeln!(printed, "{}", refusal.number()),
    }
}

// Answers the text in a file, up to its end or a read that fails, or says that the file cannot be opened.
fn answer_file<W: Write>(rt: &HostRuntime, path: &str, printed: &mut W) -> io::Result<()> {
    let mut file = match fs::open(rt, path) {
        Ok(file) => file,
        Err(error) => {
            let _ = eprintln!(rt; "{path}: {error}");
            return Ok(());
        }
    };
    let mut text = [0u8; 4097];
    let length = match read_text(&mut file, &mut text) {
        Ok(length) | Err(Cut { length }) => length,
    };
    write!(printed, "{path} ")?;
    show(&text[..length], printed)
}

fn main(rt: HostRuntime) -> io::Result<()> {
    let mut printed = rt.stdout();
    for path in env::args(&rt)?.skip(1) {
        answer_file(&rt, path.as_str(), &mut printed)?;
    }
    printed.flush()
}
