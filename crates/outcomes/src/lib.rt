// What becomes of an element of a load or a store (document 01, "Where an element goes"), and which way it was clamped (document 02, T-06).
#![tactic(auto)]

#[derive(Clone, Copy)]
pub enum Outcome {
    // Outside the view's clip: a load keeps the object's element, a store does nothing.
    Skipped,
    // A load's element takes these bits of the clamp value.
    Filled(u32),
    // A store's element goes nowhere.
    Discarded,
    // The element is at this byte of memory.
    Placed(usize),
}

// Where a coordinate is: among the places of its dimension, below the first or above the last.
#[derive(Clone, Copy)]
pub enum Side {
    Inside,
    Below,
    Above,
}

// The first dimension, from 0 up, in which an element is not inside, with the side; or none.
#[derive(Clone, Copy)]
pub enum Outside {
    Nowhere,
    Below(u8),
    Above(u8),
}

// An outcome, and beside it the first dimension outside.
#[derive(Clone, Copy)]
pub struct Explained {
    pub outcome: Outcome,
    pub outside: Outside,
}
