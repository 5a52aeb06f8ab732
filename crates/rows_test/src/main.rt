// Runs `rows` on a sheet with every kind of bad line and lines of every width (the file `stdin`), on short sheets, and on sheets at the limits, of which only the length of the output is printed.
// Then the program on files of 65,536, of 65,537 and of more bytes, where it cannot read or write, and with `--help`; what it says on standard error goes to standard output here.
// What is proved of a program is that it is safe; what it should print stands in the file `stdout`.

#![tactic(auto)]

use std::fs::{File, Files};
use std::io;
use std::io::{Input, writer};

fn output_buffer() -> [u8; 1835061] {
    [0; 1835061]
}

fn show(rt: &impl Print, sheet: &[u8]) -> io::Result<()> {
    let mut out = output_buffer();
    let k = rows::write_output(sheet, &mut out);
    rt.write_all(&out[..k])
}

fn measure(rt: &impl Print, sheet: &[u8]) -> io::Result<()> {
    let mut out = output_buffer();
    let k = rows::write_output(sheet, &mut out);
    println!(rt; "{k}")
}

// The program with this argument, on standard input.
fn run_with(rt: &(impl Input + Print), argument: &[u8]) {
    rows::run(argument, &mut rt.reader(), &mut writer(rt), &mut writer(rt));
}

// The program on a file.
fn run_on(rt: &(impl Files + Print), path: &str) -> io::Result<()> {
    let mut file = File::open(rt, path)?;
    rows::run(b"", &mut file, &mut writer(rt), &mut writer(rt));
    Ok(())
}

// A directory cannot be read, and what is open for reading cannot be written.
fn failures(rt: &(impl Files + Print)) -> io::Result<()> {
    run_on(rt, ".")?;
    let mut file = File::open(rt, "full")?;
    let mut unwritable = File::open(rt, "full")?;
    rows::run(b"", &mut file, &mut unwritable, &mut writer(rt));
    Ok(())
}

// Empty lines up to the limit, which give the longest output, and one over it.
fn newlines() -> [u8; 65536] {
    [0x0A; 65536]
}

fn more_newlines() -> [u8; 65537] {
    [0x0A; 65537]
}

fn longest(rt: &impl Print) -> io::Result<()> {
    let mut s = newlines();
    buffer::put(&mut s, 0, b"width break bytes\n", 0, 18);
    measure(rt, &s)?;
    let mut t = more_newlines();
    buffer::put(&mut t, 0, b"width break bytes\n", 0, 18);
    measure(rt, &t)
}

// 4,000 data bytes, each a line of its own, and one more.
fn most() -> [u8; 8023] {
    [0x36; 8023]
}

fn too_many() -> [u8; 8025] {
    [0x36; 8025]
}

fn many_bytes(rt: &impl Print) -> io::Result<()> {
    let mut s = most();
    buffer::put(&mut s, 0, b"width break bytes\n1 1 ", 0, 22);
    buffer::put(&mut s, 8022, b"\n", 0, 1);
    measure(rt, &s)?;
    let mut t = too_many();
    buffer::put(&mut t, 0, b"width break bytes\n1 1 ", 0, 22);
    buffer::put(&mut t, 8024, b"\n", 0, 1);
    measure(rt, &t)
}

fn main(rt: HostRuntime) -> io::Result<()> {
    run_with(&rt, b"");
    show(&rt, b"")?;
    show(&rt, b"\n")?;
    show(&rt, b"width break bytes")?;
    show(&rt, b"width break bytes\r\n")?;
    show(&rt, b"width break bytes \n")?;
    show(&rt, b"width break bytes\n")?;
    show(&rt, b"width break bytes\n5 0 6f")?;
    longest(&rt)?;
    many_bytes(&rt)?;
    run_on(&rt, "full")?;
    run_on(&rt, "over")?;
    run_on(&rt, "more")?;
    failures(&rt)?;
    run_with(&rt, b"--help");
    Ok(())
}
