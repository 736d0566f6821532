// What is remembered of one jet, as yes and no values: the state on which the rules are stated jet by jet (specs/Jets).

use crate::slots::{OffSlots, OnSlots, Overrides};

// Failed; its manifold's valve remembered as open; in its manifold's saved set.
#[derive(Clone, Copy)]
pub struct JetStanding {
    pub fail: bool,
    pub valve: bool,
    pub saved: bool,
}

#[derive(Clone, Copy)]
pub struct JetState {
    pub standing: JetStanding,
    pub good: JetStanding,
    pub off: OffSlots<bool>,
    pub on: OnSlots<bool>,
    pub over: Overrides<bool>,
    // A path fault of its string is remembered.
    pub lost: bool,
}
