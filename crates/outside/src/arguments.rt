// The program's arguments, of which 0 is its name.
ghost use Rattle.io.specs.Counts.{IsPrefixLen};

use std::env::{Env, FillError};

// Puts argument i at the start of the room and answers its length; 0 where there is none, or where it is longer than the room.
pub fn arg(env: &impl Env, i: usize, room: &mut [u8]) -> usize
    ensures { IsPrefixLen result room.new }
{
    env.arg(i, room).unwrap_or(0)
}

// How many arguments there are.
pub fn arg_count(env: &impl Env) -> usize {
    (0..usize::MAX)
        .find(|i| is_missing(env, *i))
        .unwrap_or(usize::MAX)
}

fn is_missing(env: &impl Env, i: usize) -> bool {
    let mut room = [0u8; 1];
    matches!(env.arg(i, &mut room), Err(FillError::NotPresent))
}
