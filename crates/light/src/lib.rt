// Lights, and what they make of a corner's colour.
#![tactic(auto)]

ghost use Rattle.std.specs.Prelude.{◌≡◌, ◌<◌};
ghost use Rattle.light.specs.Light.{disabled, view_of, to_light_of, shine_of, term_of, added_of, shade_of, shade_each};

use vector::three::{dot, minus, normalize, plus};

#[derive(Clone, Copy, Debug, PartialEq)]
pub struct Light {
    // Stays: a switch beside values, since a state that is handed in is given back as it came, and a
    // light that is off may have any values (`in_out`, `out_in` of plain).
    pub enabled: bool,
    pub ambient: [f32; 3],
    pub diffuse: [f32; 3],
    pub specular: [f32; 3],
    pub emission: [f32; 3],
    pub position: [f32; 3],
}

impl Light {
    pub const DISABLED: Light = Light {
        enabled: false,
        ambient: [0.0; 3],
        diffuse: [0.0; 3],
        specular: [0.0; 3],
        emission: [0.0; 3],
        position: [0.0; 3],
    };

    pub fn disabled() -> Light
        ensures { result ≡ disabled }
    {
        Light::DISABLED
    }
}

fn to_light(light: [f32; 3], position: [f32; 3]) -> [f32; 3]
    ensures { result ≡ to_light_of light position }
{
    normalize(minus(light, position))
}

// The specular factor, for a surface that faces the light by ndotl.
#[tactic(auto, unfolding(crate::specs::Light::shine_of))]
fn shine(normal: [f32; 3], to_light: [f32; 3], view: [f32; 3], ndotl: f32) -> f32
    ensures { result ≡ shine_of normal to_light view ndotl }
{
    if ndotl > 0.0 {
        let half_vector = normalize(plus(to_light, view));
        vector::three::powi16(ieee::range::max0(dot(normal, half_vector)))
    } else {
        0.0
    }
}

// What one light adds to one channel: its four terms, summed before they are added.
fn term(albedo: [f32; 4], light: Light, channel: usize, ndotl: f32, shine: f32) -> f32
    requires { channel < 3 }
    ensures { result ≡ term_of albedo light channel ndotl shine }
{
    let a = albedo[channel];
    a * light.ambient[channel]
        + a * light.diffuse[channel] * ndotl
        + light.specular[channel] * shine
        + light.emission[channel]
}

#[tactic(auto, unfolding(crate::specs::Light::added_toward))]
fn add_light(
    rgb: [f32; 3],
    albedo: [f32; 4],
    position: [f32; 3],
    normal: [f32; 3],
    view: [f32; 3],
    light: Light,
) -> [f32; 3]
    ensures { result ≡ added_of albedo position normal view light rgb }
{
    let toward = to_light(light.position, position);
    let ndotl = ieee::range::max0(dot(normal, toward));
    let specular = shine(normal, toward, view, ndotl);
    [
        rgb[0] + term(albedo, light, 0, ndotl, specular),
        rgb[1] + term(albedo, light, 1, ndotl, specular),
        rgb[2] + term(albedo, light, 2, ndotl, specular),
    ]
}

// The direction from a corner to the eye. It takes the root by itself, and not by `normalize`: with
// two callers the compiler leaves the root a function, and `normalize` is small enough to inline.
#[tactic(auto, unfolding(vector::specs::Three::normal_of))]
fn to_eye(position: [f32; 3]) -> [f32; 3]
    ensures { result ≡ view_of position }
{
    let back = [-position[0], -position[1], -position[2]];
    vector::three::scaled(back, ieee::root::sqrt(dot(back, back)))
}

pub fn shade_vertex(
    albedo: [f32; 4],
    position: [f32; 3],
    normal: [f32; 3],
    lights: &[Light; 8],
) -> [f32; 4]
    ensures { result ≡ shade_of albedo position normal lights.now }
{
    let view = to_eye(position);
    let mut rgb = [0.0, 0.0, 0.0];
    for light in lights {
        if light.enabled {
            rgb = add_light(rgb, albedo, position, normal, view, *light);
        }
    }
    [rgb[0], rgb[1], rgb[2], albedo[3]]
}

// The three corners of a triangle. Measured: three calls one below the other took 10 % longer.
pub fn shade_three(
    albedos: [[f32; 4]; 3],
    positions: [[f32; 3]; 3],
    normals: [[f32; 3]; 3],
    lights: &[Light; 8],
) -> [[f32; 4]; 3]
    ensures { result ≡ shade_each albedos positions normals lights.now }
{
    let mut colors = [[0.0; 4]; 3];
    for v in 0..3 {
        let color = shade_vertex(albedos[v], positions[v], normals[v], lights);
        colors[v] = color;
    }
    colors
}
