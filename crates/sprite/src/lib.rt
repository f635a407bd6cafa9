// Flat sprites, command 10: section 11 of docs/RULES.md. A rectangle of a texture is copied to the
// plane. What the words say and whether they are refused (`words`) is apart from painting (`draw`).
#![tactic(auto)]

ghost use Rattle.std.specs.Prelude.{◌≡◌, true, length, get_or};
ghost use Rattle.store.specs.Slots.{slots_ok, look_in};
ghost use Rattle.store.specs.declared.Kind.TheVariants as kind;
ghost use Rattle.sprite.specs.Words.{sprite_verdict, sprite_drawn};

use crate::cutout::Cutout;
use screen::plane::PLANE_BYTES;
use store::{Kind, SLOTS, Slot};
use verdict::{Verdict, not_held};

pub mod cutout;
pub mod draw;
pub mod span;
pub mod tone;
pub mod words;

// Neither depth buffer is lent: a sprite cannot read or write one.
#[tactic(auto, unfolding(crate::specs::Words::sprite_verdict, crate::specs::Words::sprite_drawn))]
pub fn draw_sprite(
    plane: &mut [u8; PLANE_BYTES],
    p: &[u32],
    slots: [Slot; SLOTS],
    textures: &[u32],
) -> Verdict
    requires p_len { length p.now ≡ 7 }
    requires slots_value { slots_ok kind.Texture (length textures.now) 0 slots ≡ true }
    ensures value { result ≡ sprite_verdict p.now (look_in kind.Texture slots textures.now (get_or p.now 0 0)) }
    ensures plane_after { plane.new ≡ sprite_drawn p.now (look_in kind.Texture slots textures.now (get_or p.now 0 0)) plane.old }
{
    let slot = store::slots::find(slots, p[0]).ok_or(not_held())?;
    words::verdict_of(p, slot.width, slot.height)?;
    let start = slot.start as usize;
    let size = store::slots::area(Kind::Texture, slot.width, slot.height);
    let sprite = words::sprite_of(p, slot.width);
    let texels = &textures[start..start + size];
    draw::draw(plane, Cutout { sprite, texels });
    Ok(())
}
