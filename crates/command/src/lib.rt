// The programs verdict and strict_verdict: a book from the file that the argument names, or from standard input, and its line on standard output.
#![tactic(auto)]

use std::env::{Env, FillError};
use std::io::{self, Read, Write};
use std::{fs, str};

// One byte more than the longest book is read, so that a longer one is seen.
fn print_verdict<R: Read>(rt: &impl Print, strict: bool, input: &mut R) -> io::Result<()> {
    let mut buf = [0u8; 65537];
    let n = reading::read_full(input, &mut buf);
    let mut out = [0u8; 71];
    let k = printed::verdict_line(strict, &buf[..n], &mut out);
    io::writer(rt).write_all(&out[..k])
}

// What went wrong, behind the program's name.
fn fail(rt: &impl Eprint, strict: bool, why: &str) -> io::Result<()> {
    if strict {
        return eprintln!(rt; "strict_verdict: {why}");
    }
    eprintln!(rt; "verdict: {why}")
}

// What went wrong with a file stands behind its name.
fn print_named_verdict(rt: &HostRuntime, strict: bool, path: &str) -> io::Result<()> {
    match fs::open(rt, path) {
        Ok(mut file) => print_verdict(rt, strict, &mut file),
        Err(error) => eprintln!(rt; "{path}: {error}"),
    }
}

fn print_file_verdict(rt: &HostRuntime, strict: bool) -> io::Result<()> {
    let mut path = [0u8; 4096];
    match rt.arg(1, &mut path) {
        Ok(n) => match str::from_utf8(&path[..n]) {
            Ok(text) => print_named_verdict(rt, strict, text),
            Err(_) => fail(rt, strict, "File name is not UTF-8"),
        },
        Err(_) => fail(rt, strict, "File name too long"),
    }
}

fn print_usage(rt: &impl Eprint, strict: bool) -> io::Result<()> {
    if strict {
        return rt.eprintln("usage: strict_verdict [BOOK]");
    }
    rt.eprintln("usage: verdict [BOOK]")
}

// Whether there is an argument i, whatever its bytes.
fn is_given(rt: &impl Env, i: usize) -> bool {
    let mut start = [0u8; 1];
    !matches!(rt.arg(i, &mut start), Err(FillError::NotPresent))
}

pub fn run(rt: &HostRuntime, strict: bool) -> io::Result<()> {
    if !is_given(rt, 1) {
        return print_verdict(rt, strict, &mut rt.reader());
    }
    if !is_given(rt, 2) {
        return print_file_verdict(rt, strict);
    }
    print_usage(rt, strict)
}
