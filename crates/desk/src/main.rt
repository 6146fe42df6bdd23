// The desk: takes the first bytes of standard input, and writes what it answers.
#![tactic(auto)]

ghost use Rattle.std.specs.Prelude.{◌≤◌, IfOk, length};

use lines::desk::{ROOM, TAKEN, desk_lines};
use std::io;
use std::io::Read;

// Reads until the buffer is full or the input ends: how many bytes stand at its front.
fn read_full(from: &mut impl Read, buf: &mut [u8]) -> io::Result<usize>
    ensures { IfOk result (λ n. n ≤ length buf.new) }
{
    let mut done = 0;
    while done < buf.len() {
        let n = from.read(&mut buf[done..])?;
        if n == 0 {
            break;
        }
        done += n;
    }
    Ok(done)
}

fn main(rt: HostRuntime) -> io::Result<()> {
    let mut input = [0u8; TAKEN];
    let mut out = [0u8; ROOM];
    let n = read_full(&mut rt.stdin(), &mut input)?;
    let m = desk_lines(&input[..n], &mut out);
    rt.write_all(&out[..m])
}
