// What the programs read, over the streams that std gives: a buffer filled from a reader. A read that
// fails is an error, which the program's `main` ends with.
#![tactic(auto)]

ghost use Rattle.std.specs.Prelude.{◌≡◌, length, IfOk, OnErr};
ghost use Rattle.console.specs.Counts.{IsPrefixLen};

use std::io;
use std::io::Read;

// Reads until buf is full or the input ends, and returns how many bytes it put at the start of buf.
// On an empty buf it makes no call. If a read fails, buf may hold what was read before.
pub fn read_full<R: Read>(from: &mut R, buf: &mut [u8]) -> io::Result<usize>
    ensures ok { IfOk result (λ n. IsPrefixLen n buf.new) }
    ensures err { OnErr result (length buf.new ≡ length buf.old) }
{
    let mut done = 0;
    while done < buf.len() {
        let n = from.read(&mut buf[done..])?;
        if n == 0 {
            break;
        }
        done += n;
    }
    Ok(done)
}
