// The float rasterisers: `rasterize_transformed_triangle` and `rasterize_textured_triangle` of the
// original. A triangle is set up by the crate `face`; its pixels are painted (`rows`) with an ink
// (`ink`).
#![tactic(auto)]

ghost use Rattle.std.specs.Prelude.{◌≡◌, length};
ghost use Rattle.raster.specs.Ink.{Texture};
ghost use Rattle.raster.specs.Triangles.{transformed_ink, tone_of, textured_ink, transformed_depths, transformed_plane, textured_depths, textured_plane};

use crate::ink::{Color, Ink, Tone};
use clip::vertex::ClipVertex;
use screen::plane::{PIXELS, PLANE_BYTES};

pub mod ink;
mod rows;

#[tactic(auto, unfolding(crate::specs::Triangles::transformed_ink))]
fn transformed_ink(tri: [ClipVertex; 3], flat: Option<Color>) -> Ink
    ensures { result ≡ transformed_ink tri flat }
{
    match flat {
        Some(color) => Ink::Flat(ink::rgba_of(color)),
        None => Ink::Blend(ink::colors_of(tri)),
    }
}

pub fn rasterize_transformed_triangle(
    plane: &mut [u8; PLANE_BYTES],
    depth_f32: &mut [f32; PIXELS],
    tri: [ClipVertex; 3],
    flat: Option<Color>,
)
    ensures depth_f32_after { depth_f32.new ≡ transformed_depths tri depth_f32.old }
    ensures plane_after { plane.new ≡ transformed_plane tri flat depth_f32.old plane.old }
{
    let setup = face::set_up(false, tri);
    let ink = transformed_ink(tri, flat);
    rows::draw(plane, depth_f32, &[], ink, setup);
}

// Stays: `tone_of` (specs/Triangles) and what is proved of it (proofs/Source) speak of every number; this
// is where one becomes a `Tone`.
#[tactic(auto, unfolding(crate::specs::Triangles::tone_of))]
fn tone_of(tri: [ClipVertex; 3], mode: u32, flat_color: Color) -> Tone
    ensures { result ≡ tone_of tri mode flat_color }
{
    match mode {
        0 => Tone::Plain,
        1 => Tone::Tinted(flat_color),
        _ => Tone::Mixed(ink::colors_of(tri)),
    }
}

#[tactic(auto, unfolding(crate::specs::Triangles::textured_ink))]
fn textured_ink(tri: [ClipVertex; 3], width: u32, height: u32, mode: u32, flat_color: Color) -> Ink
    ensures { result ≡ textured_ink tri width height mode flat_color }
{
    let sampler = ink::sampler_of(tri, width, height);
    let tone = tone_of(tri, mode, flat_color);
    Ink::Textured(sampler, tone)
}

// The texels are the words as received, two to a word.
pub fn rasterize_textured_triangle(
    plane: &mut [u8; PLANE_BYTES],
    depth_f32: &mut [f32; PIXELS],
    tri: [ClipVertex; 3],
    width: u32,
    height: u32,
    texels: &[u32],
    mode: u32,
    flat_color: Color,
)
    requires texture { Texture width height (length texels.now) }
    ensures depth_f32_after { depth_f32.new ≡ textured_depths tri depth_f32.old }
    ensures plane_after { plane.new ≡ textured_plane tri width height texels.now mode flat_color depth_f32.old plane.old }
{
    let setup = face::set_up(true, tri);
    let ink = textured_ink(tri, width, height, mode, flat_color);
    rows::draw(plane, depth_f32, texels, ink, setup);
}
