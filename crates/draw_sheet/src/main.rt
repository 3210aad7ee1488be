// Reads one sheet from standard input to its end and writes one line. A failed or closed input counts
// as its end. An input that is longer than the buffer is longer than any sheet, so it is judged rightly
// by what fits. A failed write is not reported.
#![tactic(auto)]

ghost use Rattle.std.specs.Prelude.{◌≤◌, length};

use answers::sheet_line::sheet_line;
use std::io::{Read, Write};

fn main(rt: HostRuntime) {
    let mut sheet = [0; 65536];
    let read = read_full(&mut rt.stdin(), &mut sheet);
    let mut line = [0; 65536];
    let count = sheet_line(&sheet[..read], &mut line);
    let _ = rt.stdout().write_all(&line[..count]);
}

// Reads until the buffer is full, the input ends or a read fails, and answers how many bytes stand at
// the front of the buffer then. No `for`: only the read that answers nothing tells that it was the last.
fn read_full<R: Read>(input: &mut R, buf: &mut [u8]) -> usize
    ensures { result ≤ length buf.new }
{
    let mut at = 0;
    while let Ok(n) = input.read(&mut buf[at..]) {
        if n == 0 {
            break;
        }
        at += n;
    }
    at
}
