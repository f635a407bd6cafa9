// Runs of words inside a lent store: moved down, written, and made zero.
// Each says the whole store afterwards as a `paste`: `paste d at s n` is d with the n elements from
// index `at` on replaced by s's first n.
// Moves are counted: only `move_word` reads a word of the store and writes it elsewhere.
ghost use Rattle.std.specs.Prelude.{◌≡◌, true, ◌+◌, ◌-◌, ◌≤◌, ◌<◌, ◌++◌, length, get_or, set, take, drop, replicate};
ghost use Rattle.std.proofs.Math.Seq.{paste};
ghost use Rattle.store.specs.Uploads.{without, total, behind};
ghost use Rattle.store.specs.Slots.{told, view, over, words_after, slots_ok};

use crate::slots::{Shelf, area, find};

// One word is moved, and counted: the answer is how many have been moved so far.
fn move_word(store: &mut [u32], to: usize, from: usize, moved: usize) -> usize
    requires to_in_bounds { to < length store.old }
    requires from_in_bounds { from < length store.old }
    requires moved_in_bounds { moved < length store.old }
    ensures store_after { store.new ≡ set store.old to (get_or store.old from 0) }
    ensures value { result ≡ moved + 1 }
{
    store[to] = store[from];
    moved + 1
}

// The words from `from` up to `end` begin at `to` afterwards; the rest stays. The answer is how many
// moves that took: one for each word.
fn move_down(store: &mut [u32], to: usize, from: usize, end: usize) -> usize
    requires to_le_from { to ≤ from }
    requires from_le_end { from ≤ end }
    requires end_in_bounds { end ≤ length store.old }
    ensures store_after { store.new ≡ paste store.old to (drop from store.old) (end - from) }
    ensures value { result ≡ end - from }
{
    let mut moved = 0;
    for done in 0..end - from {
        moved = move_word(store, to + done, from + done, moved);
    }
    moved
}

// The words are there from `at` on afterwards; the rest stays.
// Stays: a loop writes them from the first to the last, each once. std's copy is the C library's
// `memmove`, which may write the first bytes last, and which a host would have to bring.
pub fn write_at(store: &mut [u32], at: usize, words: &[u32])
    requires { at + length words.now ≤ length store.old }
    ensures { store.new ≡ paste store.old at words.now (length words.now) }
{
    for i in 0..words.len() {
        store[at + i] = words[i];
    }
}

// The n words from `at` on are zero afterwards; the rest stays.
// Stays: a loop, as in `write_at`.
fn clear(store: &mut [u32], at: usize, n: usize)
    requires { at + n ≤ length store.old }
    ensures { store.new ≡ paste store.old at (replicate n 0) n }
{
    for i in 0..n {
        store[at + i] = 0;
    }
}

// The words are there from `at` on afterwards, then zeros up to `old`; the rest stays.
fn put_last(store: &mut [u32], at: usize, words: &[u32], old: usize)
    requires words_in_bounds { at + length words.now ≤ length store.old }
    requires in_bounds { old ≤ length store.old }
    ensures { store.new ≡ over old (take at store.old ++ words.now) store.old }
{
    write_at(store, at, words);
    let end = at + words.len();
    if end < old {
        clear(store, end, old - end);
    }
}

// The words of an upload that has room: those of the old one under its number go, later ones close
// up, and the new ones are the last. The answer is how many words were moved, those behind the old
// one; `upload` has no use for it.
pub fn put(shelf: Shelf, store: &mut [u32], number: u32, words: &[u32]) -> usize
    requires slots_value { slots_ok shelf.kind (length store.old) 0 shelf.slots ≡ true }
    requires words_in_bounds { total (without number (told shelf.kind shelf.slots)) + length words.now ≤ length store.old }
    ensures store_after { store.new ≡ words_after number words.now (view shelf.kind shelf.slots store.old) store.old }
    ensures value { result ≡ behind number (told shelf.kind shelf.slots) }
{
    let others = shelf.used_by_others(number).total;
    let Some(s) = find(shelf.slots, number) else {
        put_last(store, others, words, others);
        return 0;
    };
    let size = area(shelf.kind, s.width, s.height);
    let end = others + size;
    let to = s.start as usize;
    let moved = move_down(store, to, to + size, end);
    put_last(store, others, words, end);
    moved
}
