// The machine's small state, which travels as one value; and whether a state that a host hands in
// is well formed.
#![tactic(auto)]

ghost use Rattle.std.specs.Prelude.{◌≡◌};
ghost use Rattle.state.specs.State.{fresh, begun_ok, well_formed};

use settings::Settings;
use store::{Kind, SLOTS, Slot};
use verdict::Notes;

// The most payload words that a command may have: as many as the command area.
pub const MAX_COMMAND_WORDS: u32 = 524291;

// What the words so far have set, sent and begun. `gathered` words of the begun command are in the
// command area, and `wanted` are missing.
// Stays: the three are numbers, with opcode 0 for no command, since a host hands a state in and
// `begun_ok` says which it may have; an Option of a begun command would ask that of the host before.
#[derive(Clone, Copy, Debug, PartialEq)]
pub struct State {
    pub settings: Settings,
    pub textures: [Slot; SLOTS],
    pub models: [Slot; SLOTS],
    pub opcode: u32,
    pub gathered: u32,
    pub wanted: u32,
    pub notes: Notes,
}

impl State {
    // No uploads, no status, no command begun.
    pub const FRESH: State = State {
        settings: Settings::FRESH,
        textures: [Slot::UNUSED; SLOTS],
        models: [Slot::UNUSED; SLOTS],
        opcode: 0,
        gathered: 0,
        wanted: 0,
        notes: Notes::NONE,
    };

    pub fn fresh() -> State
        ensures { result ≡ fresh }
    {
        State::FRESH
    }
}

#[tactic(auto, unfolding(crate::specs::State::begun_ok))]
fn begun_ok(opcode: u32, gathered: u32, wanted: u32) -> bool
    ensures { result ≡ begun_ok opcode gathered wanted }
{
    if opcode == 0 {
        gathered == 0 && wanted == 0
    } else {
        opcode <= 255 && wanted > 0 && gathered as u64 + wanted as u64 <= MAX_COMMAND_WORDS as u64
    }
}

#[tactic(auto, unfolding(crate::specs::State::well_formed))]
pub fn well_formed(state: State, texture_len: usize, model_len: usize) -> bool
    ensures { result ≡ well_formed state texture_len model_len }
{
    settings::valid::settings_ok(state.settings)
        && begun_ok(state.opcode, state.gathered, state.wanted)
        && formed::slots_ok(Kind::Texture, state.textures, texture_len)
        && formed::slots_ok(Kind::Model, state.models, model_len)
}
