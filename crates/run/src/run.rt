// The whole call: refused at the door with nothing changed, or run.
ghost use Rattle.std.specs.Prelude.{◌≡◌};
ghost use Rattle.player.specs.Hosted.{answered};
ghost use Rattle.player.specs.Refusals.{unfit_number};
ghost use Rattle.player.specs.Shown.{verdict_of};
ghost use Rattle.rules.specs.Environment.{held};
ghost use Rattle.rules.specs.Door.{said, Promise};
ghost use Rattle.run.specs.Inks.{machine};

use crate::door::door;
use crate::ink::{Ink, Own};
use crate::turns::turns;
use lent::Stack;
use numbers::place::WordIndex;
use player::refusal::Unfit;
use player::{State, Verdict, carrying_0};
use rules::answer::Answer;
use rules::environment::{Env, state_of};

// What the state that is left answers; of one that still runs, that the budget is used up.
pub fn verdict_of(s: State) -> Verdict
    ensures { result ≡ verdict_of s }
{
    match s {
        State::Running => carrying_0(1),
        State::Ended => carrying_0(0),
        State::Stopped(v) => v,
    }
}

// Refused at the door: all is as it was.
fn refused(unfit: Unfit, env: Env) -> Answer
    ensures { result ≡ record { number = unfit_number unfit; place = record { 0 = 0 }; env = env; steps = 0 } }
{
    Answer {
        number: unfit.number(),
        place: WordIndex(0),
        env,
        steps: 0,
    }
}

// In the colours of an ink.
pub fn run_in<I: Ink>(list: &[u16], screen: &mut [u8], env: Env, budget: u32, ink: &I) -> Answer
    ensures { said result screen.new
        ≡ answered (machine (I.hue ink.now)) (record { list = list.now; budget = budget }) (held env) screen.old }
{
    let mut registers = env.registers;
    let mut variables = env.variables;
    let returns = env.stack;
    let repeats = env.repeats;
    let mut stack = Stack {
        returns,
        nesting: env.nesting,
        repeats,
    };
    if let Err(unfit) = door(
        list.len(),
        screen.len(),
        env.bounds,
        registers,
        &stack,
        budget,
    ) {
        return refused(unfit, env);
    }
    let steps = turns(
        list,
        env.bounds,
        &mut registers,
        &mut variables,
        &mut stack,
        screen,
        ink,
        budget,
    );
    let verdict = verdict_of(state_of(registers));
    let returns = stack.returns;
    let repeats = stack.repeats;
    Answer {
        number: verdict.number,
        place: verdict.place,
        env: Env {
            bounds: env.bounds,
            registers,
            variables,
            stack: returns,
            nesting: stack.nesting,
            repeats,
        },
        steps,
    }
}

// In the colours by the rules.
pub fn run(list: &[u16], screen: &mut [u8], env: Env, budget: u32) -> Answer
    ensures { Promise list.now screen.old env budget result screen.new }
{
    run_in(list, screen, env, budget, &Own)
}
