// Replays uploads from standard input against a local store and prints, after each, the answer and
// digests of the slots and of the store's words. The input is words, little-endian: 0 (texture)
// or 1 (model), number, width, height and a count are an upload, whose words follow; 2, a size and
// three zeros begin a store of that size anew, every word of it `FILL`. `oracle/store_list.py`
// writes both the input and what has to be printed.
#![tactic(auto)]

ghost use Rattle.std.specs.Prelude.{◌+◌, ◌≤◌, length, MatchOption, ⊤};

use std::io;
use std::io::Stdout;
use store::{Kind, NoRoom, SLOTS, Slot};

const FILL: u32 = 3735928559;

// Words of the store.
const ROOM: usize = 4096;

// Bytes of the input.
const MOST: usize = 131072;

// Words in front of an upload's words.
const HEAD: usize = 5;

// A record of the input: its five words, and those that follow it.
#[derive(Clone, Copy)]
struct Record<'a> {
    head: [u32; HEAD],
    words: &'a [u32],
}

// The first record, and the words behind it; nothing if there is no whole one.
fn next(words: &[u32]) -> Option<(Record<'_>, &[u32])>
    ensures { MatchOption result ⊤ (λ r. length r.1.now + 1 ≤ length words.now) }
{
    let (head, rest) = words.split_first_chunk::<HEAD>()?;
    let count = head[4] as usize;
    let (words, rest) = rest.split_at_checked(count)?;
    Some((Record { head: *head, words }, rest))
}

fn digest_slots(slots: [Slot; SLOTS]) -> u64 {
    let mut digest = digest::START;
    for s in slots {
        let held = u32::from(s.held);
        digest = digest::words(digest, &[held, s.number, s.width, s.height, s.start]);
    }
    digest
}

fn report(
    out: Stdout,
    stored: Result<(), NoRoom>,
    slots: [Slot; SLOTS],
    words: &[u32],
) -> io::Result<()> {
    let answer = match stored {
        Ok(()) => 0,
        Err(NoRoom::NoSlot) => 1,
        Err(NoRoom::NoWords) => 2,
    };
    let slots = digest_slots(slots);
    let words = digest::words(digest::START, words);
    println!(out; "{answer} {slots:016x} {words:016x}")
}

// An upload is handed on once all that `store::upload` asks has been tested. The answer is the slots
// afterwards.
fn upload(
    out: Stdout,
    slots: [Slot; SLOTS],
    store: &mut [u32],
    record: Record,
) -> io::Result<[Slot; SLOTS]>
    requires { length store.old ≤ 4096 }
{
    let [kind, number, width, height, _] = record.head;
    let kind = if kind == 0 {
        Kind::Texture
    } else {
        Kind::Model
    };
    if !formed::slots_ok(kind, slots, store.len()) {
        println!(out; "malformed")?;
        return Ok(slots);
    }
    if !formed::sides_ok(kind, width, height) {
        println!(out; "sides")?;
        return Ok(slots);
    }
    if record.words.len() != store::slots::area(kind, width, height) {
        println!(out; "length")?;
        return Ok(slots);
    }
    let stored = store::upload(kind, slots, store, number, width, height, record.words);
    let after = stored.unwrap_or(slots);
    report(out, stored.map(|_| ()), after, store)?;
    Ok(after)
}

fn replay(out: Stdout, words: &[u32], room: &mut [u32]) -> io::Result<()>
    requires { length room.old ≤ 4096 }
{
    let mut slots = [Slot::UNUSED; SLOTS];
    let mut size = 0;
    let mut left = words;
    while let Some((record, rest)) = next(left) {
        left = rest;
        if record.head[0] == 2 {
            room.fill(FILL);
            slots = [Slot::UNUSED; SLOTS];
            size = room.len().min(record.head[1] as usize);
        } else {
            slots = upload(out, slots, &mut room[..size], record)?;
        }
    }
    Ok(())
}

fn main(rt: HostRuntime) -> io::Result<()> {
    let mut bytes = vec![in rt.alloc(); 0u8; MOST]?;
    let mut words = vec![in rt.alloc(); 0u32; MOST / 4]?;
    let mut room = vec![in rt.alloc(); 0u32; ROOM]?;
    let got = console::read_full(&mut rt.stdin(), &mut bytes)?;
    let n = words::words_of(&bytes[..got], &mut words);
    replay(rt.stdout(), &words[..n], &mut room)
}
