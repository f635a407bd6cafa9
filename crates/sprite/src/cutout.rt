// A sprite that was not refused, with the words of its texture.
ghost use Rattle.std.specs.Prelude.{length};
ghost use Rattle.sprite.specs.Spans.{Placed};

use crate::words::Sprite;

#[derive(Clone, Copy)]
pub struct Cutout<'a> {
    pub sprite: Sprite,
    pub texels: &'a [u32],
    ghost placed: { Placed sprite (length texels.now) },
}
