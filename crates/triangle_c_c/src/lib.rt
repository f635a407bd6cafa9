// `triangle_c` for C, function by function.
#![tactic(auto)]

ghost use Rattle.std.specs.Prelude.{◌≡◌, ◌≤◌, length};
ghost use Rattle.screen.specs.Plane.{plane_bytes};
ghost use Rattle.screen.specs.Draw.{pixels};
ghost use Rattle.raster.specs.Ink.{Texture};

// 0 if the triangle is drawn, else one more than the index of the word that is refused.
#[unsafe(no_mangle)]
pub extern "C" fn triangle_flat(plane: &mut [u8], depth: &mut [i32], p: &[u32]) -> u32
    requires plane_len { length plane.old ≡ plane_bytes }
    requires depth_len { length depth.old ≡ pixels }
    requires p_len { length p.now ≡ 11 }
{
    triangle_c::triangle_flat(plane, depth, p)
}

// Three vertices of 16. `flat` has four floats, or none if the colours of the corners count.
#[unsafe(no_mangle)]
pub extern "C" fn triangle_transformed(
    plane: &mut [u8],
    depth_f32: &mut [f32],
    x: &[f32],
    flat: &[f32],
)
    requires plane_len { length plane.old ≡ plane_bytes }
    requires depth_f32_len { length depth_f32.old ≡ pixels }
    requires in_bounds { 48 ≤ length x.now }
{
    triangle_c::triangle_transformed(plane, depth_f32, x, flat)
}

// Three vertices of 16, and the texels as received, two to a word.
#[unsafe(no_mangle)]
pub extern "C" fn triangle_textured(
    plane: &mut [u8],
    depth_f32: &mut [f32],
    x: &[f32],
    width: u32,
    height: u32,
    texels: &[u32],
    mode: u32,
    flat: &[f32],
)
    requires plane_len { length plane.old ≡ plane_bytes }
    requires depth_f32_len { length depth_f32.old ≡ pixels }
    requires in_bounds { 48 ≤ length x.now }
    requires texture { Texture width height (length texels.now) }
    requires in_bounds_2 { 4 ≤ length flat.now }
{
    triangle_c::triangle_textured(plane, depth_f32, x, width, height, texels, mode, flat)
}
