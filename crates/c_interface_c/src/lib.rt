// The archive for C: each call of the header is an export that hands its words on to the function of the same name in `c_interface`, and promises the same.
// Stays: twins of the exports of `c_interface`. C links this archive and calls each by its name, and Rust's programs take the library.
#![tactic(auto)]

mod burst;
mod by_index;
mod camera;
mod compare;
mod cut;
mod frame;
mod gimbal;
mod guide;
mod identify;
mod rival;
mod track;
