// What comes back from a call, beside the screen that it was lent. It crosses to C, so it is #[repr(C)] and holds no enum.
use crate::environment::Env;
use numbers::place::WordIndex;

// Of a run. The place is the index of the word at fault with 20 to 29, else 0.
#[repr(C)]
#[derive(Clone, Copy)]
pub struct Answer {
    pub number: u8,
    pub place: WordIndex,
    pub env: Env,
    pub steps: u32,
}

// Of the making of a fresh environment.
#[repr(C)]
#[derive(Clone, Copy)]
pub struct Made {
    pub number: u8,
    pub env: Env,
}
