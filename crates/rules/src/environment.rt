// Document 01, 'What a call is given': the environment. It crosses to C, so it is #[repr(C)] and holds no enum.
ghost use Rattle.std.specs.Prelude.{◌≡◌};
ghost use Rattle.player.specs.Player.{fault};
ghost use Rattle.player.specs.Refusals.{number_of};
ghost use Rattle.rules.specs.Environment.{carries0, state_of};

use numbers::place::WordIndex;
use player::refusal::Refusal;
use player::{State, Verdict};
use raster::dots::Dot;
use raster::frame::{Bounds, Window};

// What opcodes change beside variables, stack and repeats. The line pattern and the two values last compared are 32 bits each, the depth
// counts the stacked returns, and the state is 0 running, 1 ended, 20 to 29 stopped with that number. The place is that of the refusal, and 0 in
// an environment that is not stopped.
#[repr(C)]
#[derive(Clone, Copy)]
pub struct Registers {
    pub position: Dot,
    pub origin: Dot,
    pub window: Window,
    pub mode: u32,
    pub pattern: u32,
    pub first: u32,
    pub second: u32,
    pub counter: WordIndex,
    pub depth: u32,
    pub place: WordIndex,
    pub colour: u8,
    pub state: u8,
}

impl Registers {
    // The opcode at the counter is refused, where it begins.
    #[inline(always)]
    pub fn refused(&self, refusal: Refusal) -> Verdict
        ensures { result ≡ fault (number_of refusal) self.now.counter }
    {
        Verdict {
            number: refusal.number(),
            place: self.counter,
        }
    }

    // A refusal stops the environment, and nothing else of it is changed.
    pub fn stop(&mut self, refusal: Verdict)
        ensures { self.new ≡ record self.old { state = refusal.number; place = refusal.place } }
    {
        self.state = refusal.number;
        self.place = refusal.place;
    }
}

// Document 02, T-09, an open repeat: where its block begins, behind the RPT, and how many passes are left, the one that runs among them.
#[repr(C)]
#[derive(Clone, Copy)]
pub struct Repeat {
    pub start: WordIndex,
    pub left: u32,
}

// Variables are 32 bits each; the first return stacked is at the start of the stack, the outermost repeat at the start of the
// repeats, and the nesting counts those that are open.
#[repr(C)]
#[derive(Clone, Copy)]
pub struct Env {
    pub bounds: Bounds,
    pub registers: Registers,
    pub variables: [u32; 64],
    pub stack: [WordIndex; 16],
    pub nesting: u32,
    pub repeats: [Repeat; 8],
}

// A number with the place 0.
fn carries_0(v: Verdict, number: u8) -> bool
    ensures { result ≡ carries0 v number }
{
    v.number == number && v.place == WordIndex(0)
}

// The state that number and place stand for.
#[tactic(auto, unfolding(crate::specs::Environment::state_of))]
pub fn state_of(r: Registers) -> State
    ensures { result ≡ state_of (fault r.state r.place) }
{
    let v = Verdict {
        number: r.state,
        place: r.place,
    };
    if carries_0(v, 0) {
        return State::Running;
    }
    if carries_0(v, 1) {
        return State::Ended;
    }
    State::Stopped(v)
}
