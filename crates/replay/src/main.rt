// Replays a fixed list of cases from standard input against the library.
// Prints the first disagreeing lines, the number of cases and the number of disagreements.
#![tactic(auto)]

ghost use Rattle.std.specs.Prelude.{◌≡◌, true, ◌+◌, ◌≤◌, length, IfOk};
ghost use Rattle.text.specs.Line.{words_in};
ghost use Rattle.cases.specs.Case.{room};
ghost use Rattle.agreement.specs.Agrees.{Agrees};

use std::io;

// How many cases there are, and how many of them disagree.
#[derive(Clone, Copy)]
struct Count {
    cases: usize,
    wrong: usize,
}

fn print_number(rt: &impl Print, label: &str, n: usize) -> io::Result<()> {
    println!(rt; "{label} {n}")
}

// A malformed line has no words, and so does not agree.
fn line_agrees(line: &[u8]) -> bool
    ensures agreed { result ≡ true → Agrees (words_in room line.now) }
{
    let mut words = [0u64; cases::ROOM];
    let n = text::read_line(line, &mut words);
    agreement::agrees(&words[..n])
}

// Names a disagreeing line, if it is among the first ten.
fn report(rt: &impl Print, number: usize, wrong: usize) -> io::Result<()> {
    if wrong <= 10 {
        print_number(rt, "line", number)?;
    }
    Ok(())
}

// Each line of the text is a case, but for an empty one at its end.
fn replay(rt: &HostRuntime, text: &[u8]) -> io::Result<Count>
    ensures bounds { IfOk result (λ r. (r.cases ≤ length text.now + 1) × (r.wrong ≤ r.cases)) }
{
    let mut c = Count { cases: 0, wrong: 0 };
    let lines = text.strip_suffix(b"\n").unwrap_or(text);
    if lines.is_empty() {
        return Ok(c);
    }
    let lines = lines.strip_suffix(b"\n").unwrap_or(lines);
    for line in lines.split(|b| *b == b'\n') {
        c.cases += 1;
        if !line_agrees(line) {
            c.wrong += 1;
            report(rt, c.cases, c.wrong)?;
        }
    }
    Ok(c)
}

// A text that fills the buffer may have been cut, which is one disagreement more.
fn cut(n: usize) -> usize
    ensures most { result ≤ 1 }
{
    if n < 393216 { 0 } else { 1 }
}

fn main(rt: HostRuntime) -> io::Result<()> {
    let mut buf = [0u8; 393216];
    let n = reading::read_full(&mut rt.reader(), &mut buf);
    let c = replay(&rt, &buf[..n])?;
    print_number(&rt, "cases", c.cases)?;
    print_number(&rt, "disagreements", c.wrong + cut(n))
}
