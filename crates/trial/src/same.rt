// Are two states the same, field by field? Floats by their bits, every NaN as one.
use ieee::bits::bits_of;
use light::Light;
use settings::Settings;
use state::State;

fn floats(a: &[f32], b: &[f32]) -> bool {
    a.iter()
        .map(|x| bits_of(*x))
        .eq(b.iter().map(|x| bits_of(*x)))
}

fn light(a: &Light, b: &Light) -> bool {
    a.enabled == b.enabled
        && floats(&a.ambient, &b.ambient)
        && floats(&a.diffuse, &b.diffuse)
        && floats(&a.specular, &b.specular)
        && floats(&a.emission, &b.emission)
        && floats(&a.position, &b.position)
}

fn settings(a: &Settings, b: &Settings) -> bool {
    floats(&a.matrices, &b.matrices)
        && a.shading_mode == b.shading_mode
        && a.lighting_enabled == b.lighting_enabled
        && a.lights.iter().zip(&b.lights).all(|(x, y)| light(x, y))
}

pub fn state(a: &State, b: &State) -> bool {
    settings(&a.settings, &b.settings)
        && a.textures == b.textures
        && a.models == b.models
        && (a.opcode, a.gathered, a.wanted) == (b.opcode, b.gathered, b.wanted)
        && a.notes.status == b.notes.status
}
