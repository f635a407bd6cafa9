// The commands that paint: 04, 10, 12, 14, 16, 18, 19 and 1B.
ghost use Rattle.std.specs.Prelude.{◌≡◌, true, length};
ghost use Rattle.store.specs.Slots.{slots_ok};
ghost use Rattle.store.specs.declared.Kind.TheVariants as kind;
ghost use Rattle.execute.specs.Paints.{picture, paints_on};
ghost use Rattle.execute.specs.Commands.{painted_by};
ghost use Rattle.execute.specs.Kept.{shelf, look_on};

use crate::clear::clear;
use command::{Draw, draw_words};
use screen::plane::{PIXELS, PLANE_BYTES};
use settings::Settings;
use store::{SLOTS, Slot};
use verdict::{Verdict, wrong_length};

pub fn paint(
    draw: Draw,
    p: &[u32],
    s: Settings,
    slots: [Slot; SLOTS],
    textures: &[u32],
    model_slots: [Slot; SLOTS],
    models: &[u32],
    plane: &mut [u8; PLANE_BYTES],
    depth: &mut [i32; PIXELS],
    depth_f32: &mut [f32; PIXELS],
) -> Verdict
    requires slots_value { slots_ok kind.Texture (length textures.now) 0 slots ≡ true }
    requires model_slots_value { slots_ok kind.Model (length models.now) 0 model_slots ≡ true }
    ensures value { result ≡ (painted_by (look_on (shelf slots textures.now) (shelf model_slots models.now)) s draw p.now).verdict }
    ensures depth_f32_after { picture plane.new depth.new depth_f32.new ≡ paints_on (painted_by (look_on (shelf slots textures.now) (shelf model_slots models.now)) s draw p.now).paints (picture plane.old depth.old depth_f32.old) }
{
    if p.len() != draw_words(draw) {
        return Err(wrong_length());
    }
    match draw {
        Draw::Clear => clear(plane, depth, depth_f32, p),
        Draw::Sprite => sprite::draw_sprite(plane, p, slots, textures),
        Draw::Flat => flat::draw_flat_triangle(plane, depth, p),
        Draw::Transformed { has_normal } => {
            draw::draw_transformed_triangle(plane, depth_f32, p, has_normal, s)
        }
        Draw::Textured { has_normal } => {
            draw::draw_textured_triangle(plane, depth_f32, p, has_normal, s, slots, textures)
        }
        Draw::Model => {
            draw::draw_model(plane, depth_f32, p, s, slots, textures, model_slots, models)
        }
    }
}
