// Streams as the file has them, read into a tape of words.
ghost use Rattle.std.specs.Prelude.{◌≡◌, length, IfOk, IfSome, OnErr};
ghost use Rattle.std.specs.Iterator.{at_most};
ghost use Rattle.console.specs.Counts.{IsPrefixLen};

use std::io;
use std::io::{Read, Stdout, Write};

// How many words the longest stream has that is taken.
pub const LONGEST: usize = 110000;

// How many words are read at a time.
const PIECE: usize = 1024;

// The words of each call that a tape has: a count, and as many words, or those that are left.
#[derive(Drop)]
pub struct Calls<'a>(pub &'a [u32]);

impl<'a> Iterator for Calls<'a> {
    type Item = &'a [u32];

    ghost remaining = { λ s. at_most (length s.0.now) };

    fn next(&mut self) -> Option<&'a [u32]> {
        let (count, rest) = self.0.split_first()?;
        let n = rest.len().min(*count as usize);
        let (words, after) = rest.split_at(n);
        self.0 = after;
        Some(words)
    }
}

// Reads as many words as there are places; says whether the source had them.
fn fill(source: &mut impl Read, words: &mut [u32]) -> io::Result<bool> {
    let mut bytes = [0; PIECE * 4];
    for piece in words.chunks_mut(PIECE) {
        let wanted = piece.len() * 4;
        if console::read_full(source, &mut bytes[..wanted])? < wanted {
            return Ok(false);
        }
        words::words_of(&bytes[..wanted], piece);
    }
    Ok(true)
}

// Reads the next stream's words, counts and all, to the front of the tape, and prints its name.
// Answers how many they are. None if the file has ended, the stream has no words, or it is longer
// than the tape.
pub fn next(source: &mut impl Read, mut out: Stdout, tape: &mut [u32]) -> io::Result<Option<usize>>
    ensures ok { IfOk result (λ found. IfSome found (λ n. IsPrefixLen n tape.new)) }
    ensures err { OnErr result (length tape.new ≡ length tape.old) }
{
    let mut name = [0; 24];
    if console::read_full(source, &mut name)? < name.len() {
        return Ok(None);
    }
    let end = name.iter().position(|b| *b == 0).unwrap_or(name.len());
    out.write_all(&name[..end])?;
    out.write_all(b"\n")?;
    let mut count = [0; 4];
    console::read_full(source, &mut count)?;
    let n = u32::from_le_bytes(count) as usize;
    if n > tape.len() {
        println!(out; "too long")?;
        return Ok(None);
    }
    if !fill(source, &mut tape[..n])? {
        println!(out; "cut short")?;
        return Ok(None);
    }
    if n == 0 {
        return Ok(None);
    }
    Ok(Some(n))
}

// Moves the words, without the counts among them, to the front. Answers how many they are.
pub fn joined(tape: &mut [u32]) -> usize
    ensures { IsPrefixLen result tape.new }
{
    let mut to = 0;
    let mut left = 0;
    for at in 0..tape.len() {
        let word = tape[at];
        if left == 0 {
            left = word;
        } else {
            tape[to] = word;
            to += 1;
            left -= 1;
        }
    }
    to
}
