// The bench program: reads a night as it comes, and writes its answers.
#![tactic(auto)]

ghost use Rattle.std.specs.Prelude.{◌≤◌, length};

use bench::Bench;
use std::io::{Read, Write};

// Feeds a piece of the input, and answers whether the night goes on. The answers stand in `out` before they are written: made here, it would be
// filled with zeros at each read.
fn feed<W: Write>(bench: &mut Bench, piece: &[u8], out: &mut [u8], output: &mut W) -> bool
    requires { 64 ≤ length out.old }
{
    let mut rest = piece;
    while !rest.is_empty() {
        let f = bench.feed(rest, out);
        if output.write_all(&out[..f.written]).is_err() || f.over {
            return false;
        }
        rest = &rest[f.used..];
    }
    true
}

fn finish<W: Write>(bench: Bench, output: &mut W) {
    let mut out = [0u8; 64];
    if let Some(n) = bench.finish(&mut out) {
        let _ = output.write_all(&out[..n]);
    }
}

// Nothing says that the input ends, so the reads are counted up to a number that no run uses up.
fn main(rt: HostRuntime) {
    let mut input = rt.stdin();
    let mut output = rt.stdout();
    let mut bench = Bench::new();
    let mut buf = [0u8; 4096];
    let mut out = [0u8; 4096];
    for _ in 0..u64::MAX {
        // a read that fails ends the input
        let n = input.read(&mut buf).unwrap_or(0);
        if n == 0 {
            break;
        }
        if !feed(&mut bench, &buf[..n], &mut out, &mut output) {
            return;
        }
    }
    finish(bench, &mut output);
}
