// What a recorded frame comes with: its sides and its threshold.
#[derive(Clone, Copy)]
pub struct Shot {
    pub width: usize,
    pub height: usize,
    pub threshold: usize,
}
