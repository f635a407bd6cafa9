// Vectors of three.
ghost use Rattle.std.specs.Prelude.{◌≡◌};
ghost use Rattle.vector.specs.Three.{dot_of, plus_of, minus_of, scaled_of, normal_of, power16};

pub fn dot(a: [f32; 3], b: [f32; 3]) -> f32
    ensures { result ≡ dot_of a b }
{
    a[0] * b[0] + a[1] * b[1] + a[2] * b[2]
}

pub fn plus(a: [f32; 3], b: [f32; 3]) -> [f32; 3]
    ensures { result ≡ plus_of a b }
{
    [a[0] + b[0], a[1] + b[1], a[2] + b[2]]
}

pub fn minus(a: [f32; 3], b: [f32; 3]) -> [f32; 3]
    ensures { result ≡ minus_of a b }
{
    [a[0] - b[0], a[1] - b[1], a[2] - b[2]]
}

// The vector brought to length 1, with its length handed in.
#[tactic(auto, unfolding(crate::specs::Three::scaled_of))]
pub fn scaled(vector: [f32; 3], length: f32) -> [f32; 3]
    ensures { result ≡ scaled_of vector length }
{
    if ieee::bits::is_finite(length) && length > f32::EPSILON {
        let [x, y, z] = vector;
        return [x / length, y / length, z / length];
    }
    [0.0, 0.0, 1.0]
}

#[tactic(auto, unfolding(crate::specs::Three::normal_of))]
pub fn normalize(vector: [f32; 3]) -> [f32; 3]
    ensures { result ≡ normal_of vector }
{
    scaled(vector, ieee::root::sqrt(dot(vector, vector)))
}

// Four squarings.
#[tactic(auto, unfolding(crate::specs::Three::power16))]
pub fn powi16(x: f32) -> f32
    ensures { result ≡ power16 x }
{
    let x2 = x * x;
    let x4 = x2 * x2;
    let x8 = x4 * x4;
    x8 * x8
}
