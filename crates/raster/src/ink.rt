// What a triangle is painted with, and the colour that it gives at a pixel.
ghost use Rattle.std.specs.Prelude.{◌≡◌, ◌*◌, ◌<◌, length};
ghost use Rattle.raster.specs.Ink.{byte_of, rgba_of, divided_of, blend_of, Texture, place_of, texel_of, plain_of, tinted_of, mixed_of, toned_of, Stored, shade_of, channel_of, uv_of, colors_of, sampler_of};

use clip::vertex::ClipVertex;
use face::Corners;
use ieee::number::unit_float;
use screen::plane::Rgba;

// An interpolated colour, or a flat one.
#[derive(Clone, Copy, Debug, PartialEq)]
pub struct Color {
    pub r: f32,
    pub g: f32,
    pub b: f32,
    pub a: f32,
}

// The corners' colours, channel by channel.
#[derive(Clone, Copy, Debug, PartialEq)]
pub struct Colors {
    pub r: Corners,
    pub g: Corners,
    pub b: Corners,
    pub a: Corners,
}

// A texture's sides, and where the corners are in it.
#[derive(Clone, Copy, Debug, PartialEq)]
pub struct Sampler {
    pub width: u32,
    pub height: u32,
    pub u: Corners,
    pub v: Corners,
}

// What a texel is multiplied by, in modes 0, 1 and 2: nothing, a flat colour, an interpolated one.
#[derive(Clone, Copy, Debug, PartialEq)]
pub enum Tone {
    Plain,
    Tinted(Color),
    Mixed(Colors),
}

// The words of a texture go beside it.
#[derive(Clone, Copy, Debug, PartialEq)]
pub enum Ink {
    Flat(Rgba),
    // divided by w
    Blend(Colors),
    Textured(Sampler, Tone),
}

// The original clamps first, which changes nothing: the cast saturates.
fn byte_of(v: f32) -> u8
    ensures { result ≡ byte_of v }
{
    ieee::cast::unit_byte(v)
}

#[tactic(auto, unfolding(crate::specs::Ink::rgba_of))]
pub fn rgba_of(c: Color) -> Rgba
    ensures { result ≡ rgba_of c }
{
    Rgba {
        r: byte_of(c.r),
        g: byte_of(c.g),
        b: byte_of(c.b),
        a: byte_of(c.a),
    }
}

// A channel v, interpolated and divided: `bary` and `inv_w` are b and i, the denominator is d.
#[tactic(auto, unfolding(crate::specs::Ink::divided_of))]
fn divided(b: Corners, i: Corners, d: f32, v: Corners) -> f32
    ensures { result ≡ divided_of b i d v }
{
    (b.c0 * v.c0 * i.c0 + b.c1 * v.c1 * i.c1 + b.c2 * v.c2 * i.c2) / d
}

#[tactic(auto, unfolding(crate::specs::Ink::blend_of))]
fn blend(c: Colors, b: Corners, i: Corners, d: f32) -> Color
    ensures { result ≡ blend_of c b i d }
{
    Color {
        r: divided(b, i, d, c.r),
        g: divided(b, i, d, c.g),
        b: divided(b, i, d, c.b),
        a: divided(b, i, d, c.a),
    }
}

#[tactic(auto, unfolding(crate::specs::Ink::shade_of))]
fn blended(texels: &[u32], c: Colors, b: Corners, i: Corners) -> Option<Rgba>
    ensures { result ≡ shade_of texels.now (Ink.Blend c) b i }
{
    let denominator = face::mix(b, i);
    if ieee::range::tiny(denominator) {
        return None;
    }
    Some(rgba_of(blend(c, b, i, denominator)))
}

// A texel's number, row by row.
fn place(s: Sampler, b: Corners, n: usize) -> usize
    requires { Texture s.width s.height n }
    ensures { (result ≡ place_of s b) × (result < s.width * s.height) }
{
    let u = face::mix(b, s.u);
    let v = face::mix(b, s.v);
    ieee::cast::texel(v, s.height) * (s.width as usize) + ieee::cast::texel(u, s.width)
}

#[tactic(auto, unfolding(crate::specs::Ink::texel_of))]
fn texel(texels: &[u32], s: Sampler, b: Corners) -> Rgba
    requires { Texture s.width s.height (length texels.now) }
    ensures { result ≡ texel_of texels.now s b }
{
    texel::texel_at(texels, place(s, b, texels.len()))
}

#[tactic(auto, unfolding(crate::specs::Ink::plain_of))]
fn plain(t: Rgba) -> Color
    ensures { result ≡ plain_of t }
{
    Color {
        r: unit_float(t.r),
        g: unit_float(t.g),
        b: unit_float(t.b),
        a: unit_float(t.a),
    }
}

#[tactic(auto, unfolding(crate::specs::Ink::tinted_of))]
fn tinted(t: Color, c: Color) -> Color
    ensures { result ≡ tinted_of t c }
{
    Color {
        r: t.r * c.r,
        g: t.g * c.g,
        b: t.b * c.b,
        a: t.a * c.a,
    }
}

#[tactic(auto, unfolding(crate::specs::Ink::mixed_of))]
fn mixed(c: Colors, b: Corners) -> Color
    ensures { result ≡ mixed_of c b }
{
    Color {
        r: ieee::range::clamp01(face::mix(b, c.r)),
        g: ieee::range::clamp01(face::mix(b, c.g)),
        b: ieee::range::clamp01(face::mix(b, c.b)),
        a: ieee::range::clamp01(face::mix(b, c.a)),
    }
}

// A texel in its tone. A nibble times 17 is the same after the way through floats.
#[tactic(auto, unfolding(crate::specs::Ink::toned_of))]
fn toned(tone: Tone, t: Rgba, b: Corners) -> Rgba
    requires { rgba_of (plain_of t) ≡ t }
    ensures { result ≡ toned_of tone t b }
{
    match tone {
        Tone::Plain => t,
        Tone::Tinted(c) => rgba_of(tinted(plain(t), c)),
        Tone::Mixed(c) => rgba_of(tinted(plain(t), mixed(c, b))),
    }
}

// What an ink gives at the pixel whose `bary` is b, in a triangle whose `inv_w` is i. One place
// looks a texel up, so that the compiler puts it into the loop.
pub fn shade_at(texels: &[u32], ink: Ink, b: Corners, i: Corners) -> Option<Rgba>
    requires { Stored ink (length texels.now) }
    ensures { result ≡ shade_of texels.now ink b i }
{
    match ink {
        Ink::Flat(c) => Some(c),
        Ink::Blend(c) => blended(texels, c, b, i),
        Ink::Textured(s, tone) => Some(toned(tone, texel(texels, s, b), b)),
    }
}

// `tri[0].color[k]` and the other corners'.
fn channel_of(tri: &[ClipVertex; 3], k: usize) -> Corners
    requires { k < 4 }
    ensures { result ≡ channel_of tri.now k }
{
    Corners {
        c0: tri[0].color[k],
        c1: tri[1].color[k],
        c2: tri[2].color[k],
    }
}

fn uv_of(tri: &[ClipVertex; 3], k: usize) -> Corners
    requires { k < 2 }
    ensures { result ≡ uv_of tri.now k }
{
    Corners {
        c0: tri[0].uv[k],
        c1: tri[1].uv[k],
        c2: tri[2].uv[k],
    }
}

#[tactic(auto, unfolding(crate::specs::Ink::colors_of))]
pub fn colors_of(tri: [ClipVertex; 3]) -> Colors
    ensures { result ≡ colors_of tri }
{
    Colors {
        r: channel_of(&tri, 0),
        g: channel_of(&tri, 1),
        b: channel_of(&tri, 2),
        a: channel_of(&tri, 3),
    }
}

#[tactic(auto, unfolding(crate::specs::Ink::sampler_of))]
pub fn sampler_of(tri: [ClipVertex; 3], width: u32, height: u32) -> Sampler
    ensures { result ≡ sampler_of tri width height }
{
    Sampler {
        width,
        height,
        u: uv_of(&tri, 0),
        v: uv_of(&tri, 1),
    }
}
