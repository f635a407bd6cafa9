// Texels in a texture's words, two to a word: rule 5.13 of docs/RULES.md. The original unpacks them
// when a texture comes; here one is read where it is drawn.
#![tactic(auto)]

ghost use Rattle.std.specs.Prelude.{◌≡◌, ◌/◌, ◌<◌, length};
ghost use Rattle.texel.specs.Texel.{half_of, nibbles_of, texel_at};

use screen::plane::Rgba;

// The sixteen bits of texel n, counted row by row.
#[tactic(auto, unfolding(crate::specs::Texel::half_of))]
pub fn half(texels: &[u32], n: usize) -> u32
    requires { n / 2 < length texels.now }
    ensures { (result ≡ half_of texels.now n) × (result < 65536) }
{
    let k = n / 2;
    if n % 2 == 0 {
        return texels[k] / 65536;
    }
    texels[k] % 65536
}

#[tactic(auto, unfolding(crate::specs::Texel::nibbles_of))]
fn nibbles(texel: u32) -> Rgba
    requires { texel < 65536 }
    ensures { result ≡ nibbles_of texel }
{
    Rgba {
        r: (texel / 4096 % 16 * 17) as u8,
        g: (texel / 256 % 16 * 17) as u8,
        b: (texel / 16 % 16 * 17) as u8,
        a: (texel % 16 * 17) as u8,
    }
}

// Its colour.
#[tactic(auto, unfolding(crate::specs::Texel::texel_at))]
pub fn texel_at(texels: &[u32], n: usize) -> Rgba
    requires { n / 2 < length texels.now }
    ensures { result ≡ texel_at texels.now n }
{
    nibbles(half(texels, n))
}
