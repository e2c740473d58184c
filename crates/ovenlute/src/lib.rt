// Ovenlute's face: what the panel's firm links.
#![tactic(auto)]

ghost use Rattle.std.specs.Prelude.{◌≡◌, ◌≤◌};
ghost use Rattle.lit.specs.Lit.{lit_of};
ghost use Rattle.rules.specs.Environment.{held};
ghost use Rattle.rules.specs.Door.{Promise};
ghost use Rattle.rules.specs.Fresh as Fresh;
ghost use Rattle.wording.specs.Wording.{text_of, words_of};

use lines::line::SOLID;
use lit::{LitDots, lit};
use numbers::place::WordIndex;
use player::refusal::Unfit;
use raster::dots::Dot;
use raster::frame::{Bounds, Pane, Window};
use rules::answer::{Answer, Made};
use rules::environment::{Env, Registers, Repeat};
use run::bounds::{pane_fits, size_fits};
use wording::{Words, words_for};

// Variables 0, position and origin (0, 0), clip mode 0, window from the top left to (x, y), counter 0, stack empty, no repeat
// open, running.
fn blank(bounds: Bounds, colour: u8, pattern: u32, x: u32, y: u32) -> Env
    requires { (x ≤ 2048) × (y ≤ 2048) }
    ensures { held result ≡ Fresh.blank bounds colour pattern (Fresh.corner x y) }
{
    Env {
        bounds,
        registers: Registers {
            position: Dot { x: 0, y: 0 },
            origin: Dot { x: 0, y: 0 },
            window: Window {
                x0: 0,
                y0: 0,
                x1: x as i32,
                y1: y as i32,
            },
            mode: 0,
            pattern,
            first: 0,
            second: 0,
            counter: WordIndex(0),
            depth: 0,
            place: WordIndex(0),
            colour,
            state: 0,
        },
        variables: [0; 64],
        stack: [WordIndex(0); 16],
        nesting: 0,
        repeats: [Repeat {
            start: WordIndex(0),
            left: 0,
        }; 8],
    }
}

// What every run refuses with 10.
fn zeros() -> Env
    ensures { held result ≡ Fresh.zeros }
{
    let nowhere = Bounds {
        width: 0,
        height: 0,
        pane: Pane {
            left: 0,
            top: 0,
            right: 0,
            bottom: 0,
        },
    };
    blank(nowhere, 0, 0, 0, 0)
}

// A fresh environment: 0, or 10 for a bad size, 12 for a bad pane.
pub fn fresh(width: u32, height: u32, pane: Pane) -> Made
    ensures { Fresh.Promise (record { width = width; height = height; pane = pane }) result }
{
    let b = Bounds {
        width,
        height,
        pane,
    };
    if !size_fits(b) {
        return Made {
            number: Unfit::Size.number(),
            env: zeros(),
        };
    }
    if !pane_fits(b) {
        return Made {
            number: Unfit::Field.number(),
            env: zeros(),
        };
    }
    Made {
        number: 0,
        env: blank(b, 15, SOLID, width - 1, height - 1),
    }
}

// Runs a list, at most `budget` opcodes, over an environment by value: for programs of Rattle.
pub fn run(list: &[u16], screen: &mut [u8], env: Env, budget: u32) -> Answer
    ensures { Promise list.now screen.old env budget result screen.new }
{
    run::run::run(list, screen, env, budget)
}

// What a run over a lent environment tells; the environment stands where it was lent.
#[repr(C)]
#[derive(Clone, Copy)]
pub struct Done {
    pub number: u8,
    pub place: WordIndex,
    pub steps: u32,
}

// The same run over an environment that is lent, and changed there: the function that ovenlute_c gives C.
pub fn ovenlute_run(list: &[u16], screen: &mut [u8], env: &mut Env, budget: u32) -> Done
    ensures { Promise list.now screen.old env.old budget
        (record { number = result.number; place = result.place; env = env.new; steps = result.steps }) screen.new }
{
    let before = *env;
    let answer = run::run::run(list, screen, before, budget);
    *env = answer.env;
    Done {
        number: answer.number,
        place: answer.place,
        steps: answer.steps,
    }
}

// The making of a fresh environment, for C.
pub fn ovenlute_fresh(width: u32, height: u32, pane: Pane) -> Made
    ensures { Fresh.Promise (record { width = width; height = height; pane = pane }) result }
{
    fresh(width, height, pane)
}

// How many dots of a dashed line light up, for C.
pub fn ovenlute_lit(length: u32, pattern: u32) -> LitDots
    ensures { result ≡ lit_of length pattern }
{
    lit(length, pattern)
}

// The words for a number, for C.
pub fn ovenlute_text(number: u8) -> Words
    ensures { result ≡ words_of (text_of number) }
{
    words_for(number)
}
