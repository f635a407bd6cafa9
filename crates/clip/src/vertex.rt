// A vertex on its way to the screen: how far inside a plane it is, and the vertex between two.
ghost use Rattle.std.specs.Prelude.{◌≡◌};
ghost use Rattle.clip.specs.Vertices.{distance_of, mixed_of, mix_vertex};

#[derive(Clone, Copy, Debug, PartialEq)]
pub struct ClipVertex {
    pub position: [f32; 4],
    pub view_position: [f32; 3],
    pub normal: [f32; 3],
    pub color: [f32; 4],
    pub uv: [f32; 2],
}

// Stays: a plane is a number, since clipping goes from plane to plane in their order (`next_cut`), and
// any number from 5 on is the last plane (`distance_of`).
pub fn clip_distance(vertex: ClipVertex, plane: usize) -> f32
    ensures { result ≡ distance_of plane vertex.position }
{
    let [x, y, z, w] = vertex.position;
    match plane {
        0 => x + w,
        1 => w - x,
        2 => y + w,
        3 => w - y,
        4 => z,
        _ => w - z,
    }
}

// What is t of the way from p to c, number by number.
fn mix<const N: usize>(t: f32, p: [f32; N], c: [f32; N]) -> [f32; N]
    ensures { result ≡ mixed_of N t p.entry c.entry }
{
    let mut mixed = p;
    for i in 0..N {
        mixed[i] = p[i] + t * (c[i] - p[i]);
    }
    mixed
}

pub fn mix_vertex(t: f32, p: ClipVertex, c: ClipVertex) -> ClipVertex
    ensures { result ≡ mix_vertex t p c }
{
    ClipVertex {
        position: mix(t, p.position, c.position),
        view_position: mix(t, p.view_position, c.view_position),
        normal: vector::three::normalize(mix(t, p.normal, c.normal)),
        color: mix(t, p.color, c.color),
        uv: mix(t, p.uv, c.uv),
    }
}
