// Triangles on flat records, so that a test can draw them on buffers of its own: each function reads
// them and calls one drawing function of `flat` or `raster`. `triangle_c_c` has them for C.
#![tactic(auto)]

ghost use Rattle.std.specs.Prelude.{◌≡◌, ◌≤◌, length};
ghost use Rattle.screen.specs.Plane.{plane_bytes};
ghost use Rattle.screen.specs.Draw.{pixels};
ghost use Rattle.raster.specs.Ink.{Texture};

use clip::vertex::ClipVertex;
use raster::ink::Color;
use screen::plane::{PIXELS, PLANE_BYTES};
use vertex_c::record::vertex;

// 0 if the triangle is drawn, else one more than the index of the word that is refused.
// Stays: a number, as `triangle_c_c` exports it.
pub fn triangle_flat(plane: &mut [u8], depth: &mut [i32], p: &[u32]) -> u32
    requires plane_len { length plane.old ≡ plane_bytes }
    requires depth_len { length depth.old ≡ pixels }
    requires p_len { length p.now ≡ 11 }
{
    let plane = <&mut [u8; PLANE_BYTES]>::try_from(plane).unwrap();
    let depth = <&mut [i32; PIXELS]>::try_from(depth).unwrap();
    match flat::draw_flat_triangle(plane, depth, p) {
        Ok(()) => 0,
        Err(refused) => refused.index.wrapping_add(1),
    }
}

fn corners(x: &[f32]) -> [ClipVertex; 3]
    requires { 48 ≤ length x.now }
{
    [vertex(x, 0), vertex(x, 16), vertex(x, 32)]
}

fn color(x: &[f32]) -> Color
    requires { 4 ≤ length x.now }
{
    Color {
        r: x[0],
        g: x[1],
        b: x[2],
        a: x[3],
    }
}

// Three vertices of 16. `flat` has four floats, or none if the colours of the corners count.
pub fn triangle_transformed(plane: &mut [u8], depth_f32: &mut [f32], x: &[f32], flat: &[f32])
    requires plane_len { length plane.old ≡ plane_bytes }
    requires depth_f32_len { length depth_f32.old ≡ pixels }
    requires in_bounds { 48 ≤ length x.now }
{
    let plane = <&mut [u8; PLANE_BYTES]>::try_from(plane).unwrap();
    let depth_f32 = <&mut [f32; PIXELS]>::try_from(depth_f32).unwrap();
    let color = if flat.len() < 4 {
        None
    } else {
        Some(color(flat))
    };
    raster::rasterize_transformed_triangle(plane, depth_f32, corners(x), color);
}

// Three vertices of 16, and the texels as received, two to a word.
pub fn triangle_textured(
    plane: &mut [u8],
    depth_f32: &mut [f32],
    x: &[f32],
    width: u32,
    height: u32,
    texels: &[u32],
    mode: u32,
    flat: &[f32],
)
    requires plane_len { length plane.old ≡ plane_bytes }
    requires depth_f32_len { length depth_f32.old ≡ pixels }
    requires in_bounds { 48 ≤ length x.now }
    requires texture { Texture width height (length texels.now) }
    requires in_bounds_2 { 4 ≤ length flat.now }
{
    let plane = <&mut [u8; PLANE_BYTES]>::try_from(plane).unwrap();
    let depth_f32 = <&mut [f32; PIXELS]>::try_from(depth_f32).unwrap();
    raster::rasterize_textured_triangle(
        plane,
        depth_f32,
        corners(x),
        width,
        height,
        texels,
        mode,
        color(flat),
    );
}
