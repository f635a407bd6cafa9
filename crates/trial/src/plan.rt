// What a line's operations ask for: the call, what it is lent, and the state that it is given.
ghost use Rattle.std.specs.Prelude.{◌≡◌, ◌==◌, ◌||◌, true};
ghost use Rattle.std.specs.List.{list_any};
ghost use Rattle.state.specs.State.{fresh};

use crate::line::Op;
use crate::memories::LENT;
use ieee::bits::float_of;
use light::Light;
use state::State;
use store::Slot;

#[derive(Clone, Copy)]
pub struct Plan {
    // A reset, which takes neither state nor words, and is to leave the fresh one; or a feed.
    pub reset: bool,
    // Are the memories marked before the call, so that what is left alone can be seen?
    pub marked: bool,
    // The lengths of plane, depth, float depth, command area, textures and models.
    pub lengths: [usize; 6],
    pub state: State,
}

// Sets what is at i, if there is such a place.
fn set<T: Copy + Drop>(all: &mut [T], i: u32, x: T) {
    if let Some(place) = all.get_mut(i as usize) {
        *place = x;
    }
}

// One of a light's terms. Of its three numbers the second is given.
fn set_term(light: &mut Light, term: u32, bits: u32) {
    let three = [0.0, float_of(bits), 0.0];
    match term {
        0 => light.ambient = three,
        1 => light.diffuse = three,
        2 => light.specular = three,
        3 => light.emission = three,
        _ => light.position = three,
    }
}

fn slot_of(held: u32, number: u32, width: u32, height: u32, start: u32) -> Slot {
    Slot {
        held: held == 1,
        number,
        width,
        height,
        start,
    }
}

impl Plan {
    // A feed of the fresh state, with everything marked and lent as the calls take it.
    const USUAL: Plan = Plan {
        reset: false,
        marked: true,
        lengths: LENT,
        state: State::FRESH,
    };

    // The operations, one after the other.
    // A reset is asked for by an r (114), wherever it is.
    pub fn of(ops: &[Op]) -> Plan
        ensures reset { result.reset ≡ list_any (λ op. op.letter == 114) ops.now }
        ensures state { result.reset ≡ true → result.state ≡ fresh }
    {
        let mut asked = Plan::USUAL;
        for op in ops {
            asked.take(*op);
        }
        if asked.reset {
            asked.state = State::FRESH;
        }
        asked
    }

    // The operations, in the order of their places.
    pub fn of_places(ops: &[Option<Op>]) -> Plan {
        let mut plan = Plan::USUAL;
        for op in ops.iter().flatten() {
            plan.take(*op);
        }
        if plan.reset {
            plan.state = State::FRESH;
        }
        plan
    }

    // The letters are those of the table's head.
    // Stays: a letter is text, looked at here alone; an enum between would name each of them twice.
    fn take(&mut self, op: Op)
        ensures { self.new.reset ≡ (op.letter == 114 || self.old.reset) }
    {
        let [a, b, c, d, e, f] = op.numbers;
        let state = &mut self.state;
        match op.letter {
            b'r' => self.reset = true,
            b'g' => self.marked = false,
            b'n' => set(&mut self.lengths, a, b as usize),
            b'm' => set(&mut state.settings.matrices, a, float_of(b)),
            b'l' => {
                if let Some(light) = state.settings.lights.get_mut(a as usize) {
                    set_term(light, b, c);
                }
            }
            b's' => state.settings.shading_mode = a,
            b't' => set(&mut state.textures, a, slot_of(b, c, d, e, f)),
            b'o' => set(&mut state.models, a, slot_of(b, c, d, e, f)),
            b'f' => {
                // 64 textures of a word each, numbered by their slots.
                for i in 0..64 {
                    set(&mut state.textures, i, slot_of(1, i, 1, 1, i));
                }
            }
            b'b' => {
                state.opcode = a;
                state.gathered = b;
                state.wanted = c;
            }
            _ => {}
        }
    }
}

#[cfg(test)]
mod tests {
    use super::*;
    use std::test::Fail;

    // A reset takes no state, so that of the operations before it is gone.
    #[test]
    fn a_reset_leaves_the_fresh_state(rt: HostRuntime) -> Result<(), Fail> {
        let begun = Op {
            letter: b'b',
            numbers: [1, 2, 3, 0, 0, 0],
        };
        let shorter = Op {
            letter: b'n',
            numbers: [1, 5, 0, 0, 0, 0],
        };
        let reset = Op {
            letter: b'r',
            numbers: [0; 6],
        };
        let feed = Plan::of(&[begun, shorter]);
        assert_eq!(rt; feed.reset, false);
        assert_eq!(rt; feed.lengths[1], 5);
        assert_eq!(rt; feed.state.gathered, 2);
        let plan = Plan::of(&[begun, shorter, reset]);
        assert_eq!(rt; plan.reset, true);
        assert_eq!(rt; plan.lengths[1], 5);
        assert_eq!(rt; plan.state.gathered, 0);
        Ok(())
    }
}
