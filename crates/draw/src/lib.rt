// The float draws whole: 14, 16, 18, 19 and 1B. Each is decided first (`decide`, `judge`), and what
// is accepted is lit and painted (`stroke`).
#![tactic(auto)]

ghost use Rattle.std.specs.Prelude.{◌≡◌, true, false, ◌+◌, ◌/◌, ◌≤◌, length, get_or};
ghost use Rattle.stroke.specs.Strokes.{sheet, stroke_on, strokes_on};
ghost use Rattle.store.specs.Uploads.{is_some};
ghost use Rattle.store.specs.Slots.{area_of, sides_ok, slots_ok, upload_at, look_in};
ghost use Rattle.store.specs.declared.Kind.TheVariants as kind;
ghost use Rattle.decide.specs.Corners.{words_of, normal_matrix_of};
ghost use Rattle.decide.specs.Verdicts.{transformed_verdict, textured_verdict, records_verdict};
ghost use Rattle.draw.specs.Draws.{flat_color, shaded_brush, transformed_strokes, textured_brush, textured_stroke, textured_strokes, records_strokes, model_strokes, has_in};
ghost use Rattle.judge.specs.Judge.{model_verdict};

use clip::vertex::ClipVertex;
use decide::corner::normal_matrix;
use judge::model::triangle_of;
use judge::{Judged, mode_and_number};
use raster::ink::Color;
use screen::plane::{PIXELS, PLANE_BYTES};
use settings::Settings;
use store::{Kind, SLOTS, Slot};
use stroke::{Brush, Texture};
use vector::normal::Matrix3;
use verdict::Verdict;

// The colour of vertex 0, before clipping.
#[tactic(auto, unfolding(crate::specs::Draws::flat_color))]
fn flat_color(tri: [ClipVertex; 3]) -> Color
    ensures { result ≡ flat_color tri }
{
    let [r, g, b, a] = tri[0].color;
    Color { r, g, b, a }
}

#[tactic(auto, unfolding(crate::specs::Draws::shaded_brush))]
fn shaded_brush(shading_mode: u32, tri: [ClipVertex; 3]) -> Brush
    ensures { result ≡ shaded_brush shading_mode tri }
{
    if shading_mode == 0 {
        return Brush::Flat(flat_color(tri));
    }
    Brush::Blended
}

// 14, and with normals 16.
#[tactic(auto, unfolding(crate::specs::Draws::transformed_strokes, crate::specs::Draws::transformed_corners, stroke::specs::Strokes::strokes_on))]
pub fn draw_transformed_triangle(
    plane: &mut [u8; PLANE_BYTES],
    depth_f32: &mut [f32; PIXELS],
    p: &[u32],
    has_normal: bool,
    s: Settings,
) -> Verdict
    requires { length p.now ≡ words_of has_normal false }
    ensures value { result ≡ transformed_verdict p.now has_normal s.matrices }
    ensures depth_f32_after { sheet plane.new depth_f32.new ≡ strokes_on (transformed_strokes s p.now has_normal) (sheet plane.old depth_f32.old) }
{
    let corners = decide::verdicts::transformed(p, has_normal, &s.matrices)?;
    let tri = lit::transformed_lit(
        corners,
        has_normal,
        s.lighting_enabled,
        s.shading_mode,
        &s.lights,
    );
    let brush = shaded_brush(s.shading_mode, tri);
    stroke::paint(plane, depth_f32, tri, brush, &[]);
    Ok(())
}

#[tactic(auto, unfolding(crate::specs::Draws::textured_brush))]
fn textured_brush(slot: Slot, mode: u32, tri: [ClipVertex; 3]) -> Brush
    ensures { result ≡ textured_brush slot.width slot.height mode tri }
{
    Brush::Textured(Texture {
        width: slot.width,
        height: slot.height,
        mode,
        color: flat_color(tri),
    })
}

// Corners that passed the checks are lit, and painted with the texture of a slot.
fn paint_textured(
    plane: &mut [u8; PLANE_BYTES],
    depth_f32: &mut [f32; PIXELS],
    corners: [ClipVertex; 3],
    has_normal: bool,
    s: &Settings,
    mode: u32,
    slot: Slot,
    textures: &[u32],
)
    requires height_value { sides_ok kind.Texture slot.width slot.height ≡ true }
    requires height_in_bounds { slot.start + area_of kind.Texture slot.width slot.height ≤ length textures.now }
    ensures { sheet plane.new depth_f32.new ≡ stroke_on (textured_stroke s.now mode has_normal corners (upload_at kind.Texture slot textures.now)) (sheet plane.old depth_f32.old) }
{
    let tri = lit::textured_lit(corners, has_normal, s.lighting_enabled, mode, &s.lights);
    let brush = textured_brush(slot, mode, tri);
    let start = slot.start as usize;
    let size = store::slots::area(Kind::Texture, slot.width, slot.height);
    stroke::paint(plane, depth_f32, tri, brush, &textures[start..start + size]);
}

// 18 and 19, and a triangle of a model as a 19. The matrix for normals is asked for if the mode and
// the number passed.
fn draw_judged<F: FnOnce() -> Option<Matrix3>>(
    plane: &mut [u8; PLANE_BYTES],
    depth_f32: &mut [f32; PIXELS],
    p: &[u32],
    has_normal: bool,
    s: &Settings,
    inverse: F,
    slots: &[Slot; SLOTS],
    textures: &[u32],
) -> Verdict
    requires p_len { length p.now ≡ words_of has_normal true }
    requires inverse_callable { F.IsAlwaysCallable inverse }
    requires inverse_value { (r : _) → F.post inverse r → r ≡ normal_matrix_of s.now.matrices has_normal }
    requires slots_value { slots_ok kind.Texture (length textures.now) 0 slots.now ≡ true }
    ensures value { result ≡ textured_verdict p.now has_normal (is_some (look_in kind.Texture slots.now textures.now (get_or p.now 0 0))) s.now.matrices }
    ensures depth_f32_after { sheet plane.new depth_f32.new ≡ strokes_on (textured_strokes s.now p.now has_normal (look_in kind.Texture slots.now textures.now (get_or p.now 0 0))) (sheet plane.old depth_f32.old) }
{
    let Judged { slot, corners } = judge::textured_with(
        p,
        has_normal,
        &s.matrices,
        inverse,
        *slots,
    )?;
    paint_textured(
        plane, depth_f32, corners, has_normal, s, p[1], slot, textures,
    );
    Ok(())
}

// 18, and with normals 19.
pub fn draw_textured_triangle(
    plane: &mut [u8; PLANE_BYTES],
    depth_f32: &mut [f32; PIXELS],
    p: &[u32],
    has_normal: bool,
    s: Settings,
    slots: [Slot; SLOTS],
    textures: &[u32],
) -> Verdict
    requires p_len { length p.now ≡ words_of has_normal true }
    requires slots_value { slots_ok kind.Texture (length textures.now) 0 slots ≡ true }
    ensures value { result ≡ textured_verdict p.now has_normal (is_some (look_in kind.Texture slots textures.now (get_or p.now 0 0))) s.matrices }
    ensures depth_f32_after { sheet plane.new depth_f32.new ≡ strokes_on (textured_strokes s p.now has_normal (look_in kind.Texture slots textures.now (get_or p.now 0 0))) (sheet plane.old depth_f32.old) }
{
    let inverse = || normal_matrix(&s.matrices, has_normal);
    draw_judged(
        plane, depth_f32, p, has_normal, &s, inverse, &slots, textures,
    )
}

// The records, each painted if it is not refused.
fn draw_records(
    plane: &mut [u8; PLANE_BYTES],
    depth_f32: &mut [f32; PIXELS],
    s: Settings,
    slots: [Slot; SLOTS],
    textures: &[u32],
    mode: u32,
    words: &[u32],
) -> Verdict
    requires { slots_ok kind.Texture (length textures.now) 0 slots ≡ true }
    ensures value { result ≡ records_verdict mode (has_in (look_in kind.Texture slots textures.now)) s.matrices (length words.now / 28) words.now }
    ensures depth_f32_after { sheet plane.new depth_f32.new ≡ strokes_on (records_strokes s mode (look_in kind.Texture slots textures.now) (length words.now / 28) words.now) (sheet plane.old depth_f32.old) }
{
    let inverse = normal_matrix(&s.matrices, true);
    let mut verdict: Verdict = Ok(());
    for record in words.chunks_exact(28) {
        let triangle = triangle_of(record, mode);
        let one = draw_judged(
            plane,
            depth_f32,
            &triangle,
            true,
            &s,
            || inverse,
            &slots,
            textures,
        );
        verdict = verdict.and(one);
    }
    verdict
}

// 1B. The first refused record gives the draw's verdict.
pub fn draw_model(
    plane: &mut [u8; PLANE_BYTES],
    depth_f32: &mut [f32; PIXELS],
    p: &[u32],
    s: Settings,
    slots: [Slot; SLOTS],
    textures: &[u32],
    model_slots: [Slot; SLOTS],
    models: &[u32],
) -> Verdict
    requires p_len { length p.now ≡ 2 }
    requires slots_value { slots_ok kind.Texture (length textures.now) 0 slots ≡ true }
    requires model_slots_value { slots_ok kind.Model (length models.now) 0 model_slots ≡ true }
    ensures value { result ≡ model_verdict p.now (has_in (look_in kind.Texture slots textures.now)) s.matrices (look_in kind.Model model_slots models.now (get_or p.now 0 0)) }
    ensures depth_f32_after { sheet plane.new depth_f32.new ≡ strokes_on (model_strokes s p.now (look_in kind.Texture slots textures.now) (look_in kind.Model model_slots models.now (get_or p.now 0 0))) (sheet plane.old depth_f32.old) }
{
    let slot = mode_and_number(p, model_slots)?;
    let start = slot.start as usize;
    let end = start + 28 * slot.width as usize;
    draw_records(
        plane,
        depth_f32,
        s,
        slots,
        textures,
        p[1],
        &models[start..end],
    )
}
