// Pieces of a flat record, in the layout of the oracle's lines.
ghost use Rattle.std.specs.Prelude.{◌+◌, ◌<◌, ◌≤◌, length};

use clip::vertex::ClipVertex;
use light::Light;

// Word k of a record of bytes, the lowest first, and 0 past its end.
pub fn word_at(record: &[u8], k: usize) -> u32
    requires { k < 138 }
{
    match record.get(k * 4..k * 4 + 4) {
        Some([a, b, c, d]) => u32::from_le_bytes([*a, *b, *c, *d]),
        _ => 0,
    }
}

// Its float k.
pub fn float_at(record: &[u8], k: usize) -> f32
    requires { k < 138 }
{
    ieee::bits::float_of(word_at(record, k))
}

// The N cells from k on.
pub fn cells<const N: usize>(x: &[f32], k: usize) -> [f32; N]
    requires { k + N ≤ length x.now }
{
    let mut cells = [0.0; N];
    cells.copy_from_slice(&x[k..k + N]);
    cells
}

// Three of them, for what is shaded.
// Stays: a copy of a slice goes by way of memory, and with it a corner whose lights are off took a third
// longer.
pub fn three(x: &[f32], k: usize) -> [f32; 3]
    requires { k + 3 ≤ length x.now }
{
    [x[k], x[k + 1], x[k + 2]]
}

// The record's cells as those of the machine's three matrices, then zeros.
pub fn matrices(x: &[f32]) -> [f32; 48] {
    let mut m = [0.0; 48];
    let n = x.len().min(48);
    m[..n].copy_from_slice(&x[..n]);
    m
}

// A vertex with nothing but a position.
pub fn corner(position: [f32; 4]) -> ClipVertex {
    ClipVertex {
        position,
        view_position: [0.0; 3],
        normal: [0.0; 3],
        color: [0.0; 4],
        uv: [0.0; 2],
    }
}

// Position 4, view position 3, normal 3, colour 4, texture coordinates 2.
pub fn vertex(x: &[f32], k: usize) -> ClipVertex
    requires { k + 16 ≤ length x.now }
{
    ClipVertex {
        position: cells(x, k),
        view_position: cells(x, k + 4),
        normal: cells(x, k + 7),
        color: cells(x, k + 10),
        uv: cells(x, k + 14),
    }
}

// The switch, then ambient, diffuse, specular, emission and position.
fn light(x: &[f32], k: usize) -> Light
    requires { k + 16 ≤ length x.now }
{
    Light {
        enabled: x[k] != 0.0,
        ambient: three(x, k + 1),
        diffuse: three(x, k + 4),
        specular: three(x, k + 7),
        emission: three(x, k + 10),
        position: three(x, k + 13),
    }
}

// The eight lights from cell 10 on.
// Stays: written out, since by `from_fn` or a loop a corner whose lights are off took twice as long.
pub fn lights(x: &[f32]) -> [Light; 8]
    requires { 138 ≤ length x.now }
{
    [
        light(x, 10),
        light(x, 26),
        light(x, 42),
        light(x, 58),
        light(x, 74),
        light(x, 90),
        light(x, 106),
        light(x, 122),
    ]
}
