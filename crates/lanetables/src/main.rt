// What document 01's lane tables leave to a program, cards of two ranges, a refusal of each number with the call that
// gave it, what each limit lets through, document 02's case of an empty page, and the forecast along the whole run. The
// cases are lines of the file `stdin`, which says how they are written; for each a line is printed, its name and what
// its calls tell.
#![tactic(auto)]

mod call;
mod play;
mod word;

ghost use Rattle.std.specs.Prelude.{◌≤◌, length, IfOk};

use std::io;
use std::io::{Read, Write};

// One case: a name, a colon, a space and steps.
fn run(rt: &impl Print, line: &[u8]) -> io::Result<()> {
    let colon = script::until(line, 0, b':');
    io::writer(rt).write_all(&line[..colon])?;
    if let Some(steps) = line.get(colon + 2..) {
        play::play(rt, steps)?;
    }
    println!(rt)
}

// A line for each case. One that begins with # is a comment.
fn all(rt: &impl Print, text: &[u8]) -> io::Result<()> {
    for line in text.split_inclusive(|b| *b == b'\n') {
        if !line.starts_with(b"#") {
            run(rt, line.strip_suffix(b"\n").unwrap_or(line))?;
        }
    }
    Ok(())
}

// Fills a buffer from standard input, or as much of it as comes; tells how much. There is no heap, so the text cannot
// grow as it is read; and a read may give less than is to come.
fn read_full(rt: &impl Input, text: &mut [u8]) -> io::Result<usize>
    ensures { IfOk result (λ count. count ≤ length text.new) }
{
    let mut input = rt.reader();
    let mut count = 0;
    while count < text.len() {
        let more = input.read(&mut text[count..])?;
        if more == 0 {
            return Ok(count);
        }
        count += more;
    }
    Ok(count)
}

fn main(rt: HostRuntime) -> io::Result<()> {
    let mut text = [0u8; 65536];
    let count = read_full(&rt, &mut text)?;
    all(&rt, &text[..count])
}
