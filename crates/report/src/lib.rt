// Printing for the programs that are run: numbers, lists of them, bytes and answers, each with a space before it.
// Proved to be safe and no more: what a program prints is held to its file `stdout`.
// A write that fails is told: an `Err` is that of the write, some of the bytes may be printed then, and nothing else has changed.
#![tactic(auto)]

use recording::{Done, Refusal};
use std::io;

pub fn number(rt: &impl Print, n: u64) -> io::Result<()> {
    print!(rt; " {n}")
}

pub fn numbers(rt: &impl Print, s: &[u32]) -> io::Result<()> {
    for n in s {
        number(rt, u64::from(*n))?;
    }
    Ok(())
}

fn byte(rt: &impl Print, b: u8) -> io::Result<()> {
    if b == 10 {
        return rt.write_all(b"$");
    }
    let one = [b];
    rt.write_all(&one)
}

// Bytes as they are, with 0A shown as `$`.
pub fn text(rt: &impl Print, s: &[u8]) -> io::Result<()> {
    rt.write_all(b" ")?;
    for b in s {
        byte(rt, *b)?;
    }
    Ok(())
}

// The five numbers that a call returns: a refusal with zeros, or 0, the three lengths and the call's number.
pub fn answer(rt: &impl Print, a: Result<Done, Refusal>) -> io::Result<()> {
    let five = match a {
        Err(f) => [u64::from(f), 0, 0, 0, 0],
        Ok(d) => [0, d.data as u64, d.entries as u64, d.text as u64, d.number],
    };
    for n in five {
        number(rt, n)?;
    }
    Ok(())
}
