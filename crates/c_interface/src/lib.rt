// The functions that C may call, a module for each area. Each hands its answer over as numbers (`c_numbers`), and adds no rule of its own.
// Stays: a lens's `kind` is a number in the exports, since C hands it over.
#![tactic(auto)]

pub mod burst;
pub mod by_index;
pub mod camera;
pub mod compare;
pub mod cut;
pub mod frame;
pub mod gimbal;
pub mod guide;
pub mod identify;
pub mod rival;
pub mod track;
