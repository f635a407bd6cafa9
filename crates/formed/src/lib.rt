// Is a store well formed? Decided from the slots and the store's length.
#![tactic(auto)]

ghost use Rattle.std.specs.Prelude.{◌≡◌, ◌≤◌, map, length, drop};
ghost use Rattle.store.specs.Uploads.{slot_count};
ghost use Rattle.store.specs.Slots.{sides_ok, slots_ok, fresh, unused};
ghost use Rattle.formed.specs.Tests.{laid_ok, differ, number_of, hits};

use store::slots::area;
use store::{Kind, SLOTS, Slot};

const MOST_SIDE: u32 = 1024;

const MOST_COUNT: u32 = 18724;

// Marks for numbers. A prime, so that numbers in steps of a power of two have marks of their own.
const MARKS: usize = 509;

pub fn sides_ok(kind: Kind, width: u32, height: u32) -> bool
    ensures { result ≡ sides_ok kind width height }
{
    match kind {
        Kind::Texture => (1..=MOST_SIDE).contains(&width) && (1..=MOST_SIDE).contains(&height),
        Kind::Model => (1..=MOST_COUNT).contains(&width) && height == 0,
    }
}

// Has none of the slots, up to the first unused one, this number?
fn fresh(slots: &[Slot], number: u32) -> bool
    ensures { result ≡ fresh number slots.now }
{
    for s in slots {
        if !s.held {
            return true;
        }
        if s.number == number {
            return false;
        }
    }
    true
}

fn unused(slots: &[Slot]) -> bool
    ensures { result ≡ unused slots.now }
{
    slots.iter().all(|s| *s == Slot::UNUSED)
}

// All but the numbers. The sum of the areas is small, since sides are tested before an area is
// added.
fn laid_ok(kind: Kind, slots: [Slot; SLOTS], size: usize) -> bool
    ensures { result ≡ laid_ok kind size 0 slots }
{
    let mut at = 0;
    for (i, s) in slots.iter().enumerate() {
        if !s.held {
            return at <= size && unused(&slots[i..]);
        }
        let laid = sides_ok(kind, s.width, s.height) && s.start as usize == at;
        if !laid {
            return false;
        }
        at += area(kind, s.width, s.height);
    }
    at <= size
}

// Stays: the array's `map` took three times as long, which each call of the machine pays for.
fn numbers_of(slots: [Slot; SLOTS]) -> [u32; SLOTS]
    ensures { result ≡ map number_of slots }
{
    let mut numbers = [0; SLOTS];
    for i in 0..SLOTS {
        numbers[i] = slots[i].number;
    }
    numbers
}

// How often the number is there. All are looked at, so that several can be looked at at once.
fn times(numbers: &[u32; SLOTS], number: u32) -> u32
    ensures { result ≡ hits number numbers.now }
{
    let mut n: u32 = 0;
    for x in numbers {
        if *x == number {
            n += 1;
        }
    }
    n
}

// Are the numbers of the held slots different? This goes from the last slot to the first. A number
// whose mark is not set is none of the later ones, and neither is one that is there only once. The
// later ones are searched only for the rest.
fn numbers_differ(slots: [Slot; SLOTS]) -> bool
    ensures { result ≡ differ slots }
{
    let numbers = numbers_of(slots);
    let mut marks = [false; MARKS];
    let mut ok = true;
    for i in (0..SLOTS).rev() {
        let s = slots[i];
        if s.held {
            let mark = s.number as usize % MARKS;
            let again = marks[mark] && 1 < times(&numbers, s.number);
            ok = ok && (!again || fresh(&slots[i + 1..], s.number));
            marks[mark] = true;
        } else {
            ok = true;
        }
    }
    ok
}

// Rule 1.12, for a store of `size` words.
pub fn slots_ok(kind: Kind, slots: [Slot; SLOTS], size: usize) -> bool
    ensures { result ≡ slots_ok kind size 0 slots }
{
    laid_ok(kind, slots, size) && (!slots[0].held || numbers_differ(slots))
}
