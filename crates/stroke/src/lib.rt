// A float triangle painted: clipped, cut into a fan, and each triangle of it rasterised.
#![tactic(auto)]

ghost use Rattle.std.specs.Prelude.{◌≡◌, ◌≤◌, length};
ghost use Rattle.clip.specs.Polygons.{fan};
ghost use Rattle.clip.specs.Vertices.{room, of};
ghost use Rattle.stroke.specs.Strokes.{sheet, triangle_on, fan_on, stroke, stroke_on, Stored};

use clip::polygon::Polygon;
use clip::vertex::ClipVertex;
use raster::ink::Color;
use screen::plane::{PIXELS, PLANE_BYTES};

// How a texture is laid on: its sides, the mode of 18, 19 and 1B, and the flat colour of mode 1.
#[derive(Clone, Copy, Debug, PartialEq)]
pub struct Texture {
    pub width: u32,
    pub height: u32,
    // Stays: the word of the payload, since `textured_brush` and `tone_of` speak of every number.
    pub mode: u32,
    pub color: Color,
}

// What a triangle is painted with. The words of a texture go beside it.
#[derive(Clone, Copy, Debug, PartialEq)]
pub enum Brush {
    Flat(Color),
    Blended,
    Textured(Texture),
}

#[tactic(auto, unfolding(crate::specs::Strokes::triangle_on))]
fn paint_triangle(
    plane: &mut [u8; PLANE_BYTES],
    depth_f32: &mut [f32; PIXELS],
    tri: [ClipVertex; 3],
    brush: Brush,
    texels: &[u32],
)
    requires stored { Stored brush (length texels.now) }
    ensures { sheet plane.new depth_f32.new ≡ triangle_on brush texels.now tri (sheet plane.old depth_f32.old) }
{
    match brush {
        Brush::Flat(color) => raster::rasterize_transformed_triangle(
            plane,
            depth_f32,
            tri,
            Some(color),
        ),
        Brush::Blended => { raster::rasterize_transformed_triangle(plane, depth_f32, tri, None) }
        Brush::Textured(t) => raster::rasterize_textured_triangle(
            plane, depth_f32, tri, t.width, t.height, texels, t.mode, t.color,
        ),
    }
}

// The polygon's first vertex with each two neighbours after it.
fn paint_fan(
    plane: &mut [u8; PLANE_BYTES],
    depth_f32: &mut [f32; PIXELS],
    polygon: Polygon,
    brush: Brush,
    texels: &[u32],
)
    requires stored { Stored brush (length texels.now) }
    requires count_le_room { polygon.count ≤ room }
    ensures { sheet plane.new depth_f32.new ≡ fan_on brush texels.now (fan (of polygon)) (sheet plane.old depth_f32.old) }
{
    let first = polygon.vertices[0];
    for i in 1..polygon.count.saturating_sub(1) {
        let tri = [first, polygon.vertices[i], polygon.vertices[i + 1]];
        paint_triangle(plane, depth_f32, tri, brush, texels);
    }
}

// The whole of it. A triangle that no plane cuts is painted as it is.
pub fn paint(
    plane: &mut [u8; PLANE_BYTES],
    depth_f32: &mut [f32; PIXELS],
    tri: [ClipVertex; 3],
    brush: Brush,
    texels: &[u32],
)
    requires stored { Stored brush (length texels.now) }
    ensures { sheet plane.new depth_f32.new ≡ stroke_on (stroke tri brush texels.now) (sheet plane.old depth_f32.old) }
{
    let inside = clip::polygon::all_inside(tri);
    if inside {
        paint_triangle(plane, depth_f32, tri, brush, texels);
    } else {
        paint_fan(
            plane,
            depth_f32,
            clip::polygon::clip_all(tri),
            brush,
            texels,
        );
    }
}
