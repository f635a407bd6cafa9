// What lighting makes of the three corners.
#![tactic(auto)]

ghost use Rattle.std.specs.Prelude.{◌≡◌};
ghost use Rattle.lit.specs.Lit.{with_color, shaded_by, lit_each, mean_normal, one_color, own_lit, each_lit, edge_of, cross_of, face_normal, face_lit, transformed_lit, textured_lit};

use clip::vertex::ClipVertex;
use light::{Light, shade_three, shade_vertex};
use vector::three::{minus, normalize, plus};

fn with_color(v: ClipVertex, color: [f32; 4]) -> ClipVertex
    ensures { result ≡ with_color v color }
{
    ClipVertex { color, ..v }
}

fn shaded(v: ClipVertex, normal: [f32; 3], lights: &[Light; 8]) -> [f32; 4]
    ensures { result ≡ shaded_by lights.now v normal }
{
    shade_vertex(v.color, v.view_position, normal, lights)
}

// The vertex lit by the face's normal.
fn face_lit(v: ClipVertex, normal: [f32; 3], lights: &[Light; 8]) -> ClipVertex
    ensures { result ≡ face_lit lights.now normal v }
{
    with_color(v, shaded(v, normal, lights))
}

#[tactic(auto, unfolding(crate::specs::Lit::mean_normal))]
fn mean_normal(tri: [ClipVertex; 3]) -> [f32; 3]
    ensures { result ≡ mean_normal tri }
{
    let [v0, v1, v2] = tri;
    normalize(plus(plus(v0.normal, v1.normal), v2.normal))
}

fn one_color(tri: [ClipVertex; 3], color: [f32; 4]) -> [ClipVertex; 3]
    ensures { result ≡ one_color tri color }
{
    let [v0, v1, v2] = tri;
    [
        with_color(v0, color),
        with_color(v1, color),
        with_color(v2, color),
    ]
}

// Each vertex by the normal that is given for it.
fn lit_each(tri: [ClipVertex; 3], normals: [[f32; 3]; 3], lights: &[Light; 8]) -> [ClipVertex; 3]
    ensures { result ≡ lit_each lights.now normals tri }
{
    let [v0, v1, v2] = tri;
    let (albedo0, albedo1, albedo2) = (v0.color, v1.color, v2.color);
    let (position0, position1, position2) = (v0.view_position, v1.view_position, v2.view_position);
    let [color0, color1, color2] = shade_three(
        [albedo0, albedo1, albedo2],
        [position0, position1, position2],
        normals,
        lights,
    );
    [
        with_color(v0, color0),
        with_color(v1, color1),
        with_color(v2, color2),
    ]
}

fn own_lit_each(tri: [ClipVertex; 3], lights: &[Light; 8]) -> [ClipVertex; 3]
    ensures { result ≡ each_lit (own_lit lights.now) tri }
{
    let [v0, v1, v2] = tri;
    let (normal0, normal1, normal2) = (v0.normal, v1.normal, v2.normal);
    lit_each(tri, [normal0, normal1, normal2], lights)
}

// 14 and 16.
// Stays: the modes here and in `textured_lit` are numbers, since the definitions of both speak of
// every number: one is a host's (`settings_ok`), the other a word of the payload.
#[tactic(auto, unfolding(crate::specs::Lit::transformed_lit))]
pub fn transformed_lit(
    tri: [ClipVertex; 3],
    has_normal: bool,
    lighting_enabled: bool,
    shading_mode: u32,
    lights: &[Light; 8],
) -> [ClipVertex; 3]
    ensures { result ≡ transformed_lit lighting_enabled shading_mode lights.now has_normal tri }
{
    if !has_normal || !lighting_enabled {
        return tri;
    }
    if shading_mode == 0 {
        let color = shaded(tri[0], mean_normal(tri), lights);
        return one_color(tri, color);
    }
    own_lit_each(tri, lights)
}

// `edge_a` and `edge_b`.
fn edge(a: ClipVertex, b: ClipVertex) -> [f32; 3]
    ensures { result ≡ edge_of a b }
{
    minus(b.view_position, a.view_position)
}

#[tactic(auto, unfolding(crate::specs::Lit::cross_of))]
fn cross(a: [f32; 3], b: [f32; 3]) -> [f32; 3]
    ensures { result ≡ cross_of a b }
{
    normalize([
        a[1] * b[2] - a[2] * b[1],
        a[2] * b[0] - a[0] * b[2],
        a[0] * b[1] - a[1] * b[0],
    ])
}

#[tactic(auto, unfolding(crate::specs::Lit::face_normal))]
fn face_normal(tri: [ClipVertex; 3]) -> [f32; 3]
    ensures { result ≡ face_normal tri }
{
    let [v0, v1, v2] = tri;
    cross(edge(v0, v1), edge(v0, v2))
}

fn face_lit_each(tri: [ClipVertex; 3], normal: [f32; 3], lights: &[Light; 8]) -> [ClipVertex; 3]
    ensures { result ≡ each_lit (face_lit lights.now normal) tri }
{
    lit_each(tri, [normal; 3], lights)
}

// 18 and 19. Mode 0 is not lit, and in mode 1 only vertex 0 is.
#[tactic(auto, unfolding(crate::specs::Lit::textured_lit))]
pub fn textured_lit(
    tri: [ClipVertex; 3],
    has_normal: bool,
    lighting_enabled: bool,
    mode: u32,
    lights: &[Light; 8],
) -> [ClipVertex; 3]
    ensures { result ≡ textured_lit lighting_enabled mode lights.now has_normal tri }
{
    if lighting_enabled {
        if mode == 1 {
            let [v0, v1, v2] = tri;
            return [face_lit(v0, face_normal(tri), lights), v1, v2];
        }
        if mode == 2 {
            if has_normal {
                return own_lit_each(tri, lights);
            }
            return face_lit_each(tri, face_normal(tri), lights);
        }
    }
    tri
}
