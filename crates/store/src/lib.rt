// The stores of uploads: 64 slots for textures and 64 for models, each over a lent run of words.
// Section 8 of docs/RULES.md. What a store decides (room, slots afterwards) is in `slots` and needs
// only the slots and the store's length; `words` moves the words. Whether a store is well formed is
// tested in the crate `formed`.
#![tactic(auto)]

pub mod slots;
pub mod words;

ghost use Rattle.std.specs.Prelude.{◌≡◌, true, ◌≤◌, length};
ghost use Rattle.store.specs.Uploads.{most_words};
ghost use Rattle.store.specs.Slots.{area_of, sides_ok, no_slot, slots_ok, Uploaded, whole_of};

use slots::Shelf;

pub const SLOTS: usize = 64;

// What a store holds.
#[derive(Clone, Copy, Debug, PartialEq, Eq)]
pub enum Kind {
    Texture,
    Model,
}

// One slot of a store. A model's count is in `width`, and its `height` is 0. An unused slot is
// all zero.
#[derive(Clone, Copy, Debug, PartialEq, Eq)]
pub struct Slot {
    // Stays: a switch beside values, since a state that is handed in is given back as it came, also one
    // whose unused slot is not all zero (`in_out`, `out_in` of plain).
    pub held: bool,
    pub number: u32,
    pub width: u32,
    pub height: u32,
    pub start: u32,
}

impl Slot {
    pub const UNUSED: Slot = Slot {
        held: false,
        number: 0,
        width: 0,
        height: 0,
        start: 0,
    };

    pub fn unused() -> Slot
        ensures { result ≡ no_slot }
    {
        Slot::UNUSED
    }
}

// What is missing for an upload that has no room.
#[derive(Clone, Copy, Debug, PartialEq, Eq)]
pub enum NoRoom {
    NoSlot,
    NoWords,
}

// An upload that passed the checks of its command. If it has no room, the store is as it was, and so
// are the slots; else the old upload of its number goes, later ones close up, and it is the last. The
// answer is the slots afterwards.
pub fn upload(
    kind: Kind,
    slots: [Slot; SLOTS],
    store: &mut [u32],
    number: u32,
    width: u32,
    height: u32,
    words: &[u32],
) -> Result<[Slot; SLOTS], NoRoom>
    requires slots_value { slots_ok kind (length store.old) 0 slots ≡ true }
    requires store_len_bound { length store.old ≤ most_words }
    requires height_value { sides_ok kind width height ≡ true }
    requires words_len { length words.now ≡ area_of kind width height }
    ensures { Uploaded kind slots store.old (whole_of number width height words.now) result store.new }
{
    let shelf = Shelf { kind, slots };
    shelf.room_for(store.len(), number, words.len())?;
    words::put(shelf, store, number, words);
    Ok(shelf.slots_after(number, width, height))
}
