// 17 and 1A: what is checked of an upload before the stores are asked for room.
ghost use Rattle.std.specs.Prelude.{◌≡◌, true, ◌≤◌, length};
ghost use Rattle.store.specs.Slots.{area_of, sides_ok, whole_of};
ghost use Rattle.store.specs.declared.Kind.TheVariants as kind;
ghost use Rattle.execute.specs.Commands.{texture_verdict, count_verdict, texture_in, model_in};
ghost use Rattle.execute.specs.Control.{no_room};
ghost use Rattle.execute.specs.Kept.{Formed, shelf, shelved_by, kept_on, loaded_on};
ghost use Rattle.state.specs.State.{most_payload};

use store::{Kind, NoRoom, SLOTS, Slot};
use verdict::{Reason, Refused, Verdict, out_of_range, wrong_length};

fn no_room(why: NoRoom) -> Refused
    ensures { result ≡ no_room why }
{
    let reason = match why {
        NoRoom::NoSlot => Reason::NoSlot,
        NoRoom::NoWords => Reason::NoWords,
    };
    Refused { reason, index: 0 }
}

fn texture_verdict(p: &[u32]) -> Verdict
    ensures { result ≡ texture_verdict p.now }
{
    if p.len() < 3 {
        return Err(wrong_length());
    }
    let width = p[1];
    let height = p[2];
    if width == 0 {
        return Err(out_of_range(1));
    }
    if height == 0 {
        return Err(out_of_range(2));
    }
    if width > 1024 {
        return Err(out_of_range(1));
    }
    if height > 1024 {
        return Err(out_of_range(2));
    }
    if p.len() != 3 + store::slots::area(Kind::Texture, width, height) {
        return Err(wrong_length());
    }
    Ok(())
}

fn count_verdict(p: &[u32]) -> Verdict
    ensures { result ≡ count_verdict p.now }
{
    if p.len() < 2 {
        return Err(wrong_length());
    }
    let count = p[1];
    if count == 0 {
        return Err(out_of_range(1));
    }
    if p.len() != 2 + store::slots::area(Kind::Model, count, 0) {
        return Err(wrong_length());
    }
    Ok(())
}

// An upload that passed its checks: the slots after it, if it has room.
fn keep(
    kind: Kind,
    slots: [Slot; SLOTS],
    store: &mut [u32],
    number: u32,
    width: u32,
    height: u32,
    words: &[u32],
) -> Verdict<[Slot; SLOTS]>
    requires formed { Formed kind slots (length store.old) }
    requires height_value { sides_ok kind width height ≡ true }
    requires words_len { length words.now ≡ area_of kind width height }
    ensures { shelved_by slots result store.new ≡ kept_on kind (shelf slots store.old) (whole_of number width height words.now) }
{
    store::upload(kind, slots, store, number, width, height, words).map_err(no_room)
}

pub fn upload_texture(slots: [Slot; SLOTS], store: &mut [u32], p: &[u32]) -> Verdict<[Slot; SLOTS]>
    requires { Formed kind.Texture slots (length store.old) }
    ensures { shelved_by slots result store.new ≡ loaded_on (texture_verdict p.now) (texture_in p.now) (shelf slots store.old) }
{
    texture_verdict(p)?;
    keep(Kind::Texture, slots, store, p[0], p[1], p[2], &p[3..])
}

pub fn upload_model(slots: [Slot; SLOTS], store: &mut [u32], p: &[u32]) -> Verdict<[Slot; SLOTS]>
    requires formed { Formed kind.Model slots (length store.old) }
    requires p_len_bound { length p.now ≤ most_payload }
    ensures { shelved_by slots result store.new ≡ loaded_on (count_verdict p.now) (model_in p.now) (shelf slots store.old) }
{
    count_verdict(p)?;
    keep(Kind::Model, slots, store, p[0], p[1], 0, &p[2..])
}
