// Polygons as flat records and back.
ghost use Rattle.std.specs.Prelude.{◌≡◌, ◌*◌, ◌<◌, ◌≤◌, length};

use clip::polygon::Polygon;
use clip::vertex::ClipVertex;

pub fn of(x: &[f32], count: usize) -> Polygon
    requires { (count ≤ 19) × (count * 16 ≤ length x.now) }
    ensures { result.count ≡ count }
{
    let empty = crate::record::corner([0.0; 4]);
    let mut vertices = [empty; 28];
    for i in 0..count {
        vertices[i] = crate::record::vertex(x, i * 16);
    }
    Polygon { vertices, count }
}

fn flat(v: ClipVertex) -> [f32; 16] {
    [
        v.position[0],
        v.position[1],
        v.position[2],
        v.position[3],
        v.view_position[0],
        v.view_position[1],
        v.view_position[2],
        v.normal[0],
        v.normal[1],
        v.normal[2],
        v.color[0],
        v.color[1],
        v.color[2],
        v.color[3],
        v.uv[0],
        v.uv[1],
    ]
}

// How many vertices were written.
pub fn put(polygon: Polygon, out: &mut [f32; 448]) -> usize
    requires { polygon.count ≤ 28 }
    ensures { result ≤ 28 }
{
    for (k, v) in polygon.vertices[..polygon.count].iter().enumerate() {
        out[k * 16..k * 16 + 16].copy_from_slice(&flat(*v));
    }
    polygon.count
}
