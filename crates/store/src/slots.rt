// What the slots say, whether an upload has room, and the slots after it: slots and lengths alone.
ghost use Rattle.std.specs.Prelude.{◌≡◌, ◌+◌, ◌≤◌, ◌<◌, length};
ghost use Rattle.store.specs.Uploads.{without, total, most_words, slot_count, room};
ghost use Rattle.store.specs.Slots.{area_of, told, slot_for, slots_of, slots_after, card_of, stays};

use crate::{Kind, NoRoom, SLOTS, Slot};

// The held slot with this number.
pub fn find(slots: [Slot; SLOTS], number: u32) -> Option<Slot>
    ensures { result ≡ slot_for number slots }
{
    for s in &slots {
        if s.held && s.number == number {
            return Some(*s);
        }
    }
    None
}

// How many words an upload of these sides takes.
pub fn area(kind: Kind, width: u32, height: u32) -> usize
    ensures { result ≡ area_of kind width height }
{
    let w = width as usize;
    let h = height as usize;
    match kind {
        Kind::Texture => (w * h + 1) / 2,
        Kind::Model => 28 * w,
    }
}

// Does this slot stay, once the upload under the number has gone?
fn keeps(s: Slot, number: u32) -> bool
    ensures { result ≡ stays number s }
{
    s.held && s.number != number
}

// How many slots the other numbers hold, and how many words they take.
#[derive(Clone, Copy, Debug, PartialEq, Eq)]
pub struct Usage {
    pub count: usize,
    pub total: usize,
}

// The uploads under other numbers, closed up.
#[derive(Clone, Copy)]
struct Left {
    slots: [Slot; SLOTS],
    usage: Usage,
}

// The slots of one kind. A store of the greatest size has room for their areas.
#[derive(Clone, Copy)]
pub struct Shelf {
    pub kind: Kind,
    pub slots: [Slot; SLOTS],
    ghost in_range: { total (told kind slots) ≤ most_words },
}

impl Shelf {
    fn others(self, number: u32) -> Left
        ensures slots_value { result.slots ≡ slots_of (without number (told self.kind self.slots)) }
        ensures count_value { (result.usage.count ≡ length (without number (told self.kind self.slots))) × (result.usage.total ≡ total (without number (told self.kind self.slots))) }
    {
        let mut left = [Slot::UNUSED; SLOTS];
        let mut count = 0;
        let mut total = 0;
        for s in self.slots {
            if keeps(s, number) {
                left[count] = Slot {
                    start: total as u32,
                    ..s
                };
                count += 1;
                total += area(self.kind, s.width, s.height);
            }
        }
        Left {
            slots: left,
            usage: Usage { count, total },
        }
    }

    pub fn used_by_others(self, number: u32) -> Usage
        ensures { (result.count ≡ length (without number (told self.kind self.slots))) × (result.total ≡ total (without number (told self.kind self.slots))) }
    {
        self.others(number).usage
    }

    // Is there room for so many words under this number, in a store of `size` words? An old upload
    // under the number would leave both its slot and its words, so only the other numbers count.
    pub fn room_for(self, size: usize, number: u32, words: usize) -> Result<(), NoRoom>
        requires { words ≤ most_words }
        ensures { result ≡ room size (told self.kind self.slots) number words }
    {
        let used = self.used_by_others(number);
        if SLOTS <= used.count {
            return Err(NoRoom::NoSlot);
        }
        if size < used.total + words {
            return Err(NoRoom::NoWords);
        }
        Ok(())
    }

    // The slots after an upload that has room.
    pub fn slots_after(self, number: u32, width: u32, height: u32) -> [Slot; SLOTS]
        requires { length (without number (told self.kind self.slots)) < slot_count }
        ensures { result ≡ slots_after (card_of self.kind number width height) (told self.kind self.slots) }
    {
        let left = self.others(number);
        let mut out = left.slots;
        out[left.usage.count] = Slot {
            held: true,
            number,
            width,
            height,
            start: left.usage.total as u32,
        };
        out
    }
}
