// 1B decided without drawing, record by record.
ghost use Rattle.std.specs.Prelude.{◌≡◌, true, [], ◌/◌, ◌≤◌, length, get_or};
ghost use Rattle.store.specs.Slots.{slots_ok, look_in};
ghost use Rattle.store.specs.declared.Kind.TheVariants as kind;
ghost use Rattle.payload.specs.Words.{and_then};
ghost use Rattle.decide.specs.Verdicts.{textured_by, triangle_of, records_verdict};
ghost use Rattle.judge.specs.Judge.{held_in, named_verdict, model_verdict};

use crate::mode_and_number;
use decide::corner::normal_matrix;
use store::{SLOTS, Slot};
use vector::normal::Matrix3;
use verdict::Verdict;

// A record of a model, with the mode between its number and its vertices.
pub fn triangle_of(words: &[u32], mode: u32) -> [u32; 29]
    requires { 28 ≤ length words.now }
    ensures { result ≡ triangle_of mode words.now }
{
    let mut triangle = [0; 29];
    triangle[0] = words[0];
    triangle[1] = mode;
    triangle[2..].copy_from_slice(&words[1..28]);
    triangle
}

// The same checks as for a record that is drawn. No corner is needed for them.
fn record_verdict(p: &[u32; 29], inverse: Option<Matrix3>, slots: [Slot; SLOTS]) -> Verdict
    ensures { result ≡ and_then (named_verdict p.now slots) (textured_by p.now true inverse []) }
{
    mode_and_number(p, slots)?;
    decide::verdicts::lit(p, inverse)
}

// The first refused record gives the verdict.
// Stays: an index, since by it a record can be taken at a wrong place that is in bounds (the edit
// `records_of_27_words`).
fn records(words: &[u32], mode: u32, m: &[f32; 48], slots: [Slot; SLOTS]) -> Verdict
    ensures { result ≡ records_verdict mode (held_in slots) m.now (length words.now / 28) words.now }
{
    let inverse = normal_matrix(m, true);
    for k in 0..words.len() / 28 {
        let triangle = triangle_of(&words[28 * k..], mode);
        record_verdict(&triangle, inverse, slots)?;
    }
    Ok(())
}

// 1B.
pub fn model_verdict(
    p: &[u32],
    m: &[f32; 48],
    slots: [Slot; SLOTS],
    model_slots: [Slot; SLOTS],
    models: &[u32],
) -> Verdict
    requires p_len { length p.now ≡ 2 }
    requires model_slots_value { slots_ok kind.Model (length models.now) 0 model_slots ≡ true }
    ensures { result ≡ model_verdict p.now (held_in slots) m.now (look_in kind.Model model_slots models.now (get_or p.now 0 0)) }
{
    let slot = mode_and_number(p, model_slots)?;
    let start = slot.start as usize;
    let count = slot.width as usize;
    records(&models[start..start + 28 * count], p[1], m, slots)
}
