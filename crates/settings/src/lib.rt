// What the commands 01, 02 and 15 set, and every float draw reads.
#![tactic(auto)]

ghost use Rattle.std.specs.Prelude.{◌≡◌, ◌≤◌, length, get_or};
ghost use Rattle.verdict.specs.Verdict.{passed};
ghost use Rattle.settings.specs.Settings.{fresh, mode_verdict, with_mode, matrix_verdict, with_matrix, light_verdict, light_of, with_light};

use light::Light;
use verdict::Verdict;

pub mod valid;

#[derive(Clone, Copy, Debug, PartialEq)]
pub struct Settings {
    pub matrices: [f32; 48],
    // Stays: a number, since a host hands settings in with a state, and `settings_ok` says that it
    // is 0 or 1 (`mode_not`); an enum would ask that of the host before.
    pub shading_mode: u32,
    pub lighting_enabled: bool,
    pub lights: [Light; 8],
}

impl Settings {
    // Three identity matrices, and eight dark lights.
    pub const FRESH: Settings = Settings {
        matrices: [
            1.0, 0.0, 0.0, 0.0, 0.0, 1.0, 0.0, 0.0, 0.0, 0.0, 1.0, 0.0, 0.0, 0.0, 0.0, 1.0, 1.0,
            0.0, 0.0, 0.0, 0.0, 1.0, 0.0, 0.0, 0.0, 0.0, 1.0, 0.0, 0.0, 0.0, 0.0, 1.0, 1.0, 0.0,
            0.0, 0.0, 0.0, 1.0, 0.0, 0.0, 0.0, 0.0, 1.0, 0.0, 0.0, 0.0, 0.0, 1.0,
        ],
        shading_mode: 0,
        lighting_enabled: false,
        lights: [Light::DISABLED; 8],
    };

    pub fn fresh() -> Settings
        ensures { result ≡ fresh }
    {
        Settings::FRESH
    }
}

#[tactic(auto, unfolding(crate::specs::Settings::mode_verdict))]
fn mode_verdict(p: &[u32; 2]) -> Verdict
    ensures { result ≡ mode_verdict p.now }
{
    payload::at_most(p, 0, 1)?;
    payload::at_most(p, 1, 1)
}

#[tactic(auto, unfolding(crate::specs::Settings::with_mode))]
fn with_mode(s: Settings, p: &[u32; 2]) -> Settings
    ensures { result ≡ with_mode s p.now }
{
    let mut after = s;
    if p[0] == 0 {
        after.shading_mode = p[1];
    } else {
        after.lighting_enabled = p[1] == 1;
    }
    after
}

// Command 01: word 0 says whether word 1 is the shading mode or switches lighting.
pub fn set_mode(s: Settings, p: &[u32; 2]) -> Verdict<Settings>
    ensures { result ≡ passed (mode_verdict p.now) (with_mode s p.now) }
{
    mode_verdict(p)?;
    Ok(with_mode(s, p))
}

#[tactic(auto, unfolding(crate::specs::Settings::matrix_verdict))]
fn matrix_verdict(p: &[u32; 17]) -> Verdict
    ensures { result ≡ matrix_verdict p.now }
{
    payload::at_most(p, 0, 2)?;
    payload::finite_from(p, 1, 16)
}

fn with_matrix(s: Settings, p: &[u32; 17]) -> Settings
    requires { get_or p.now 0 0 ≤ 2 }
    ensures { result ≡ with_matrix s p.now }
{
    let mut after = s;
    let at = p[0] as usize * 16;
    ieee::bits::floats_of(&p[1..], &mut after.matrices[at..at + 16]);
    after
}

// Command 02: the matrix's number, and its sixteen cells row by row.
pub fn set_matrix(s: Settings, p: &[u32; 17]) -> Verdict<Settings>
    ensures { result ≡ passed (matrix_verdict p.now) (with_matrix s p.now) }
{
    matrix_verdict(p)?;
    Ok(with_matrix(s, p))
}

#[tactic(auto, unfolding(crate::specs::Settings::light_verdict))]
fn light_verdict(p: &[u32; 17]) -> Verdict
    ensures { result ≡ light_verdict p.now }
{
    payload::at_most(p, 0, 7)?;
    payload::at_most(p, 1, 1)?;
    payload::finite_from(p, 2, 15)
}

fn light_of(p: &[u32; 17]) -> Light
    ensures { result ≡ light_of p.now }
{
    Light {
        enabled: p[1] == 1,
        ambient: payload::three_at(p, 2),
        diffuse: payload::three_at(p, 5),
        specular: payload::three_at(p, 8),
        emission: payload::three_at(p, 11),
        position: payload::three_at(p, 14),
    }
}

#[tactic(auto, unfolding(crate::specs::Settings::with_light))]
fn with_light(s: Settings, p: &[u32; 17]) -> Settings
    requires { get_or p.now 0 0 ≤ 7 }
    ensures { result ≡ with_light s p.now }
{
    let i = p[0] as usize;
    let mut after = s;
    after.lights[i] = light_of(p);
    after
}

// Command 15: the light's number, its switch, and its fifteen floats.
pub fn set_light(s: Settings, p: &[u32; 17]) -> Verdict<Settings>
    ensures { result ≡ passed (light_verdict p.now) (with_light s p.now) }
{
    light_verdict(p)?;
    Ok(with_light(s, p))
}
