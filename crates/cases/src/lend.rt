// The calls, each lent as much of the memories as its line says.
use tell::Seen;
use tell::amount::Amount;
use trial::memories::Memories;
use trial::plan::Plan;
use trial::same;
use vpu::Fed;

// The first n, or all if there are fewer.
fn first<T>(all: &[T], n: usize) -> &[T] {
    &all[..n.min(all.len())]
}

fn first_mut<T>(all: &mut [T], n: usize) -> &mut [T] {
    let end = n.min(all.len());
    &mut all[..end]
}

pub fn call(plan: &Plan, words: &[u32], memories: &mut Memories) -> Fed {
    let [a, b, c, d, e, f] = plan.lengths;
    let plane = first_mut(&mut memories.plane, a);
    let depth = first_mut(&mut memories.depth, b);
    let depth_f32 = first_mut(&mut memories.depth_f32, c);
    let command = first_mut(&mut memories.command, d);
    let textures = first_mut(&mut memories.textures, e);
    let models = first_mut(&mut memories.models, f);
    if plan.reset {
        vpu::reset(plane, depth, depth_f32, command, textures, models)
    } else {
        vpu::feed(
            plan.state, words, plane, depth, depth_f32, command, textures, models,
        )
    }
}

// How much the call changed of the state that it was given, and of the memories.
fn changed(plan: &Plan, fed: &Fed, memories: &Memories) -> Amount {
    let same = same::state(&plan.state, &fed.state);
    let marked = memories.marked();
    Amount::of(
        same && marked.iter().all(|kept| *kept),
        !same && !marked.iter().any(|kept| *kept),
    )
}

// Only what the call was lent is looked at.
pub fn seen<'a>(plan: &Plan, fed: Fed, memories: &'a Memories) -> Seen<'a> {
    let [a, b, c, ..] = plan.lengths;
    Seen {
        answer: u32::from(fed.answer),
        changed: changed(plan, &fed, memories),
        state: fed.state,
        plane: first(&memories.plane, a),
        depth: first(&memories.depth, b),
        depth_f32: first(&memories.depth_f32, c),
    }
}
