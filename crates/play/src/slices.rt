// Runs the lists of a page in turn, a slice of its budget each.
ghost use Rattle.std.specs.Prelude.{◌≤◌};

use crate::page::{Page, Playing};
use rules::answer::Answer;
use rules::environment::Env;

// Opcodes in a slice, and slices in the largest budget.
const SLICE: u32 = 1_000;

const SLICES: u32 = 1_000;

// Each list to its end, to a stop, or to the end of its budget; where it is to be seen who painted what, in the opcodes' own colours.
pub fn rounds(screen: &mut [u8], page: &mut Page<'_>, painted: bool) {
    if painted {
        rounds_by(tint::tinted, screen, page);
    } else {
        rounds_by(ovenlute::run, screen, page);
    }
}

fn rounds_by<R: Fn(&[u16], &mut [u8], Env, u32) -> Answer>(
    run: R,
    screen: &mut [u8],
    page: &mut Page<'_>,
)
    requires { R.IsAlwaysCallable run }
{
    for _ in 0..SLICES {
        round(&run, screen, page);
    }
}

// One slice of each list. A list that has ended or stopped answers its number again.
fn round<R: Fn(&[u16], &mut [u8], Env, u32) -> Answer>(
    run: &R,
    screen: &mut [u8],
    page: &mut Page<'_>,
)
    requires { R.IsAlwaysCallable run.now }
{
    for playing in page.lists.iter_mut().flatten() {
        let budget = playing.left.min(SLICE);
        let answer = run(playing.list, screen, playing.env, budget);
        *playing = ran(*playing, budget, answer);
    }
}

// The list after `budget` of what is left of its budget.
fn ran<'a>(playing: Playing<'a>, budget: u32, answer: Answer) -> Playing<'a>
    requires { budget ≤ playing.left }
{
    Playing {
        env: answer.env,
        left: playing.left - budget,
        steps: playing.steps.wrapping_add(answer.steps),
        number: answer.number,
        ..playing
    }
}
