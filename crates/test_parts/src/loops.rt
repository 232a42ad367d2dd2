// Loops, visit by visit.

use object_heap::{ListHeap, Value};
use st_loops::{LoopKind, LoopState, LoopStep, advance, begin, is_kept, is_receiver};
use st_names::Names;

// What a step goes on from, if it asks for a value.
fn state_of(step: LoopStep) -> Option<LoopState> {
    match step {
        LoopStep::Apply { state, .. } => Some(state),
        LoopStep::Equal { state, .. } => Some(state),
        LoopStep::Lacking { state } => Some(state),
        _ => None,
    }
}

// The step after a value came, or None where the loop asks for none.
fn go_on(heap: &mut ListHeap, names: &Names, step: LoopStep, given: Value) -> Option<LoopStep> {
    let state = state_of(step)?;
    if !is_receiver(heap, state.kind, state.receiver) || !is_kept(heap, state) {
        return None;
    }
    Some(advance(heap, names, state, given))
}

/// The step after all these values came.
pub fn run(
    heap: &mut ListHeap,
    names: &Names,
    kind: LoopKind,
    receiver: Value,
    arguments: &[Value],
    given: &[Value],
) -> Option<LoopStep> {
    if arguments.len() > 3 || !is_receiver(heap, kind, receiver) {
        return None;
    }
    let mut step = begin(heap, names, kind, receiver, arguments);
    for value in given {
        match go_on(heap, names, step, *value) {
            Some(next) => step = next,
            None => return None,
        }
    }
    Some(step)
}
