// The nights program: runs the bench on each stored night that an argument names, and says whether it writes what is stored.
#![tactic(auto)]

ghost use Rattle.std.specs.Prelude.{◌≡◌, true, ◌≤◌, length, IfSome};
ghost use Rattle.bench.specs.Output.{output};

use bench::Bench;
use std::env::{Env, FillError};
use std::fs::OpenOptions;
use std::io::{Read, Write};
use std::rt::Files;

// The bench writes for this input what is wanted. A night whose answers fill the buffer is taken for wrong.
fn holds(input: &[u8], want: &[u8]) -> bool
    ensures { result ≡ true → want.now ≡ output input.now }
{
    let mut out = [0u8; 8192];
    let mut end = [0u8; 64];
    let mut bench = Bench::new();
    let f = bench.feed(input, &mut out);
    if !f.over && f.used < input.len() {
        return false;
    }
    let Some(n) = bench.finish(&mut end) else {
        return false;
    };
    let Some(rest) = want.strip_prefix(&out[..f.written]) else {
        return false;
    };
    rest == &end[..n]
}

// Reads a file that fits the buffer, and answers how many bytes it has. A read tells how many it brought: no iterator counts that more plainly.
fn fill<R: Read>(file: &mut R, buf: &mut [u8]) -> Option<usize>
    ensures { IfSome result (λ n. n ≤ length buf.new) }
{
    let mut len = 0;
    while len < buf.len() {
        let n = file.read(&mut buf[len..]).ok()?;
        if n == 0 {
            return Some(len);
        }
        len += n;
    }
    let mut more = [0u8; 1];
    match file.read(&mut more) {
        Ok(0) => Some(len),
        _ => None,
    }
}

fn load(rt: &HostRuntime, path: &[u8], buf: &mut [u8]) -> Option<usize>
    ensures { IfSome result (λ n. n ≤ length buf.new) }
{
    let path = std::str::from_utf8(path).ok()?;
    let mut file = rt.open_file(OpenOptions::new().read(true), path).ok()?;
    fill(&mut file, buf)
}

// What came of a night.
#[derive(Clone, Copy, PartialEq, Eq)]
enum Outcome {
    Same,
    Differs,
    // a file of it cannot be read whole
    Unread,
}

// The night NAME: NAME.in is what the bench reads, NAME.out what it is to write.
fn try_night(rt: &HostRuntime, name: &[u8]) -> Outcome {
    let mut input = [0u8; 8192];
    let mut want = [0u8; 8192];
    // fixed memory, as all of the program has
    let mut path = [0u8; 256];
    let n = name.len();
    if path.len() < n + 4 {
        return Outcome::Unread;
    }
    path[..n].copy_from_slice(name);
    path[n..n + 3].copy_from_slice(b".in");
    let a = load(rt, &path[..n + 3], &mut input);
    path[n..n + 4].copy_from_slice(b".out");
    let b = load(rt, &path[..n + 4], &mut want);
    match (a, b) {
        (Some(a), Some(b)) if holds(&input[..a], &want[..b]) => Outcome::Same,
        (Some(_), Some(_)) => Outcome::Differs,
        _ => Outcome::Unread,
    }
}

// Writes the name of the night that argument i gives, and what came of it.
fn night<W: Write>(rt: &HostRuntime, output: &mut W, i: usize) -> Outcome {
    let mut name = [0u8; 256];
    // a name that is missing or too long is taken for an empty one
    let n = rt.arg(i, &mut name).unwrap_or(0);
    let _ = output.write_all(&name[..n]);
    let outcome = try_night(rt, &name[..n]);
    let _ = output.write_all(match outcome {
        Outcome::Same => b" same\n",
        Outcome::Differs => b" differs\n",
        Outcome::Unread => b" cannot be read\n",
    });
    outcome
}

// How many arguments there are, the program's own name among them.
fn arg_count(rt: &HostRuntime) -> usize {
    let mut name = [0u8; 256];
    (0..usize::MAX)
        .find(|i| matches!(rt.arg(*i, &mut name), Err(FillError::NotPresent)))
        .unwrap_or(usize::MAX)
}

fn main(rt: HostRuntime) {
    let mut output = rt.stdout();
    let args = arg_count(&rt);
    let mut same = 0u64;
    for i in 1..args {
        if night(&rt, &mut output, i) == Outcome::Same {
            same += 1;
        }
    }
    let nights = args.saturating_sub(1);
    let _ = println!(rt; "{same} of {nights} nights are the same");
}
