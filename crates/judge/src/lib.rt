// The float draws that ask for an upload, decided: 18, 19 and 1B, from words, matrices and slots.
// Nothing here sees a texel, the plane or a depth, and nothing is lit.
#![tactic(auto)]

pub mod model;

ghost use Rattle.std.specs.Prelude.{◌≡◌, true, ◌≤◌, length};
ghost use Rattle.payload.specs.Words.{passed};
ghost use Rattle.decide.specs.Corners.{words_of, normal_matrix_of};
ghost use Rattle.judge.specs.Judge.{named_verdict, slot_by, judged_by};

use clip::vertex::ClipVertex;
use decide::corner::normal_matrix;
use payload::at_most;
use store::{SLOTS, Slot};
use vector::normal::Matrix3;
use verdict::{Verdict, not_held};

// The first two checks of 18, 19 and 1B, and the slot under the number: the mode, which is word 1,
// and then the number, word 0.
#[tactic(auto, unfolding(crate::specs::Judge::named_verdict, crate::specs::Judge::slot_by))]
pub fn mode_and_number(p: &[u32], slots: [Slot; SLOTS]) -> Verdict<Slot>
    requires { 2 ≤ length p.now }
    ensures { result ≡ passed (named_verdict p.now slots) (slot_by p.now slots) }
{
    at_most(p, 1, 2)?;
    store::slots::find(slots, p[0]).ok_or(not_held())
}

// What is to be lit and painted: the texture's slot, and the corners.
#[derive(Clone, Copy, Debug, PartialEq)]
pub struct Judged {
    pub slot: Slot,
    pub corners: [ClipVertex; 3],
}

// 18, and with normals 19; a triangle of a model is judged as a 19. The matrix for normals is asked
// for if the mode and the number passed: a 19 works it out then, and the records of a model share one.
#[tactic(auto, unfolding(crate::specs::Judge::judged_by, crate::specs::Judge::named_verdict, decide::specs::Verdicts::textured_verdict))]
pub fn textured_with<F: FnOnce() -> Option<Matrix3>>(
    p: &[u32],
    has_normal: bool,
    m: &[f32; 48],
    inverse: F,
    slots: [Slot; SLOTS],
) -> Verdict<Judged>
    requires p_len { length p.now ≡ words_of has_normal true }
    requires inverse_callable { F.IsAlwaysCallable inverse }
    requires inverse_value { (r : _) → F.post inverse r → r ≡ normal_matrix_of m.now has_normal }
    ensures { result ≡ judged_by p.now has_normal m.now slots }
{
    let slot = mode_and_number(p, slots)?;
    let corners = decide::verdicts::textured(p, has_normal, m, inverse())?;
    Ok(Judged { slot, corners })
}

// 18, and with normals 19, decided by itself.
pub fn textured(p: &[u32], has_normal: bool, m: &[f32; 48], slots: [Slot; SLOTS]) -> Verdict<Judged>
    requires { length p.now ≡ words_of has_normal true }
    ensures { result ≡ judged_by p.now has_normal m.now slots }
{
    textured_with(p, has_normal, m, || normal_matrix(m, has_normal), slots)
}
