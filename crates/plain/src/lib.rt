// What a host in C hands over and is given, as plain data: the state, whose switches are bytes, and
// a pixel.
#![tactic(auto)]

ghost use Rattle.std.specs.Prelude.{◌≡◌, map};
ghost use Rattle.screen.specs.Plane.{answered};
ghost use Rattle.std.specs.List.{list_all};
ghost use Rattle.plain.specs.Plain.{switch_of, light_in, light_out, slot_in, slot_out, state_in, state_out, light_switch, slot_switch, switches_ok, shown};

use light::Light;
use screen::plane::{Rgba, WrongLength};
use settings::Settings;
use state::State;
use store::{SLOTS, Slot};
use verdict::Notes;

// Stays: the structs for C have numbers where ours have switches and answers.
#[repr(C)]
#[derive(Clone, Copy, Debug, PartialEq)]
pub struct VpuLight {
    pub enabled: u8,
    pub ambient: [f32; 3],
    pub diffuse: [f32; 3],
    pub specular: [f32; 3],
    pub emission: [f32; 3],
    pub position: [f32; 3],
}

impl VpuLight {
    const DARK: VpuLight = VpuLight {
        enabled: 0,
        ambient: [0.0; 3],
        diffuse: [0.0; 3],
        specular: [0.0; 3],
        emission: [0.0; 3],
        position: [0.0; 3],
    };
}

#[repr(C)]
#[derive(Clone, Copy, Debug, PartialEq)]
pub struct VpuSlot {
    pub held: u8,
    pub number: u32,
    pub width: u32,
    pub height: u32,
    pub start: u32,
}

impl VpuSlot {
    const UNUSED: VpuSlot = VpuSlot {
        held: 0,
        number: 0,
        width: 0,
        height: 0,
        start: 0,
    };
}

#[repr(C)]
#[derive(Clone, Copy, Debug, PartialEq)]
pub struct VpuState {
    pub matrices: [f32; 48],
    pub shading_mode: u32,
    pub lighting_enabled: u8,
    pub lights: [VpuLight; 8],
    pub textures: [VpuSlot; SLOTS],
    pub models: [VpuSlot; SLOTS],
    pub opcode: u32,
    pub gathered: u32,
    pub wanted: u32,
    pub status: u32,
}

#[repr(C)]
#[derive(Clone, Copy, Debug, PartialEq)]
pub struct VpuColour {
    pub answer: u32,
    pub r: u8,
    pub g: u8,
    pub b: u8,
    pub a: u8,
}

impl From<VpuLight> for Light {
    ghost from_gives = { λ l r. r ≡ light_in l };

    fn from(l: VpuLight) -> Light {
        let VpuLight {
            enabled,
            ambient,
            diffuse,
            specular,
            emission,
            position,
        } = l;
        Light {
            enabled: enabled != 0,
            ambient,
            diffuse,
            specular,
            emission,
            position,
        }
    }
}

impl From<Light> for VpuLight {
    ghost from_gives = { λ l r. r ≡ light_out l };

    fn from(l: Light) -> VpuLight {
        let Light {
            enabled,
            ambient,
            diffuse,
            specular,
            emission,
            position,
        } = l;
        VpuLight {
            enabled: u8::from(enabled),
            ambient,
            diffuse,
            specular,
            emission,
            position,
        }
    }
}

impl From<VpuSlot> for Slot {
    ghost from_gives = { λ s r. r ≡ slot_in s };

    fn from(s: VpuSlot) -> Slot {
        Slot {
            held: s.held != 0,
            number: s.number,
            width: s.width,
            height: s.height,
            start: s.start,
        }
    }
}

impl From<Slot> for VpuSlot {
    ghost from_gives = { λ s r. r ≡ slot_out s };

    fn from(s: Slot) -> VpuSlot {
        VpuSlot {
            held: u8::from(s.held),
            number: s.number,
            width: s.width,
            height: s.height,
            start: s.start,
        }
    }
}

// Arrays are turned element by element.
// Stays: an array's `map` moves each element through an Option, and takes two and a half times as long.
fn lights_in(lights: [VpuLight; 8]) -> [Light; 8]
    ensures { result ≡ map light_in lights }
{
    let mut out = [Light::DISABLED; 8];
    for i in 0..8 {
        out[i] = Light::from(lights[i]);
    }
    out
}

fn lights_out(lights: [Light; 8]) -> [VpuLight; 8]
    ensures { result ≡ map light_out lights }
{
    let mut out = [VpuLight::DARK; 8];
    for i in 0..8 {
        out[i] = VpuLight::from(lights[i]);
    }
    out
}

fn slots_in(slots: [VpuSlot; SLOTS]) -> [Slot; SLOTS]
    ensures { result ≡ map slot_in slots }
{
    let mut out = [Slot::UNUSED; SLOTS];
    for i in 0..SLOTS {
        out[i] = Slot::from(slots[i]);
    }
    out
}

fn slots_out(slots: [Slot; SLOTS]) -> [VpuSlot; SLOTS]
    ensures { result ≡ map slot_out slots }
{
    let mut out = [VpuSlot::UNUSED; SLOTS];
    for i in 0..SLOTS {
        out[i] = VpuSlot::from(slots[i]);
    }
    out
}

impl From<VpuState> for State {
    ghost from_gives = { λ v s. s ≡ state_in v };

    fn from(v: VpuState) -> State {
        let matrices = v.matrices;
        let lights = v.lights;
        let textures = v.textures;
        let models = v.models;
        let settings = Settings {
            matrices,
            shading_mode: v.shading_mode,
            lighting_enabled: v.lighting_enabled != 0,
            lights: lights_in(lights),
        };
        State {
            settings,
            textures: slots_in(textures),
            models: slots_in(models),
            opcode: v.opcode,
            gathered: v.gathered,
            wanted: v.wanted,
            notes: Notes { status: v.status },
        }
    }
}

impl From<State> for VpuState {
    ghost from_gives = { λ s v. v ≡ state_out s };

    fn from(s: State) -> VpuState {
        let Settings {
            matrices,
            shading_mode,
            lighting_enabled,
            lights,
        } = s.settings;
        let textures = s.textures;
        let models = s.models;
        let notes = s.notes;
        VpuState {
            matrices,
            shading_mode,
            lighting_enabled: u8::from(lighting_enabled),
            lights: lights_out(lights),
            textures: slots_out(textures),
            models: slots_out(models),
            opcode: s.opcode,
            gathered: s.gathered,
            wanted: s.wanted,
            status: notes.status,
        }
    }
}

fn lights_ok(lights: &[VpuLight]) -> bool
    ensures { result ≡ list_all light_switch lights.now }
{
    lights.iter().all(|light| light.enabled <= 1)
}

fn slots_ok(slots: &[VpuSlot]) -> bool
    ensures { result ≡ list_all slot_switch slots.now }
{
    slots.iter().all(|slot| slot.held <= 1)
}

// Is each switch 0 or 1?
#[tactic(auto, unfolding(crate::specs::Plain::switches_ok))]
pub fn switches_ok(s: VpuState) -> bool
    ensures { result ≡ switches_ok s }
{
    s.lighting_enabled <= 1 && lights_ok(&s.lights) && slots_ok(&s.textures) && slots_ok(&s.models)
}

// A pixel that was read, or that the plane's length is wrong: 0 or 1, and the four bytes.
impl From<Result<Rgba, WrongLength>> for VpuColour {
    ghost from_gives = { λ read c. shown c ≡ answered read };

    fn from(read: Result<Rgba, WrongLength>) -> VpuColour {
        match read {
            Ok(c) => VpuColour {
                answer: 0,
                r: c.r,
                g: c.g,
                b: c.b,
                a: c.a,
            },
            Err(WrongLength) => VpuColour {
                answer: 1,
                r: 0,
                g: 0,
                b: 0,
                a: 0,
            },
        }
    }
}
