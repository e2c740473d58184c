// The door: 10 to 14, lowest first.
ghost use Rattle.std.specs.Prelude.{◌≡◌, List, ℕ, length};
ghost use Rattle.player.specs.Refusals.{door_number};
ghost use Rattle.rules.specs.Environment.{start, over, firsts, pen_of, flow_of};
ghost use Rattle.rules.specs.Door as Door;
ghost use Rattle.lent.specs.Lent.{look};

use crate::bounds::{pane_fits, size_fits};
use lent::Stack;
use numbers::coordinate::in_word;
use numbers::place::WordIndex;
use player::State;
use player::refusal::Unfit;
use raster::dots::Dot;
use raster::frame::{Bounds, Window};
use rules::environment::{Registers, Repeat, state_of};

fn dot_fits(p: Dot) -> bool
    ensures { result ≡ Door.dot_fits p }
{
    in_word(p.x) && in_word(p.y)
}

fn window_fits(w: Window) -> bool
    ensures { result ≡ Door.window_fits w }
{
    in_word(w.x0) && in_word(w.y0) && (in_word(w.x1) && in_word(w.y1))
}

fn state_fits(s: State) -> bool
    ensures { result ≡ Door.state_fits s }
{
    match s {
        State::Running => true,
        State::Ended => true,
        State::Stopped(v) => 20 <= v.number && v.number <= 29 && index_fits(v.place),
    }
}

// 0 to 65,536.
fn index_fits(i: WordIndex) -> bool
    ensures { result ≡ Door.index_fits i }
{
    i.0 <= 65536
}

// The stacked returns are word indices, and at most 16.
fn stack_fits(stack: &Stack, depth: u32) -> bool
    ensures { result ≡ Door.stack_fits (firsts start depth stack.now.returns) }
{
    let returns: &[WordIndex] = &stack.returns;
    depth <= 16 && returns[..depth as usize].iter().all(|i| index_fits(*i))
}

// A word index and 1 to 1,000 passes left.
fn repeat_fits(r: Repeat) -> bool
    ensures { result ≡ Door.repeat_fits r }
{
    index_fits(r.start) && (1 <= r.left && r.left <= 1000)
}

// The open repeats are such, and at most eight.
fn repeats_fit(stack: &Stack) -> bool
    ensures { result ≡ Door.repeats_fit (firsts over stack.now.nesting stack.now.repeats) }
{
    let repeats: &[Repeat] = &stack.repeats;
    stack.nesting <= 8
        && repeats[..stack.nesting as usize]
            .iter()
            .all(|r| repeat_fits(*r))
}

fn pen_fits(r: Registers) -> bool
    ensures { result ≡ Door.pen_fits (pen_of r) }
{
    dot_fits(r.position) && (dot_fits(r.origin) && (r.mode <= 2 && window_fits(r.window)))
}

fn flow_fits(r: Registers, stack: &Stack) -> bool
    ensures { result ≡ Door.flow_fits (flow_of r stack.now.returns stack.now.nesting stack.now.repeats) }
{
    index_fits(r.counter) && (stack_fits(stack, r.depth) && repeats_fit(stack))
}

// Every range but the size's.
fn fits(b: Bounds, r: Registers, stack: &Stack) -> bool
    ensures { (vs : List ℕ) → result ≡ Door.fits (look b r vs stack.now) }
{
    pane_fits(b) && (pen_fits(r) && (flow_fits(r, stack) && state_fits(state_of(r))))
}

// Of a list of `words` words and a screen of `bytes` bytes.
pub fn door(
    words: usize,
    bytes: usize,
    b: Bounds,
    r: Registers,
    stack: &Stack,
    budget: u32,
) -> Result<(), Unfit>
    ensures { (w vs : List ℕ) → length w ≡ words
        → door_number result ≡ Door.door (record { list = w; budget = budget }) (look b r vs stack.now) bytes }
{
    if !size_fits(b) {
        return Err(Unfit::Size);
    }
    if bytes != (b.width * b.height) as usize {
        return Err(Unfit::Screen);
    }
    if !fits(b, r, stack) {
        return Err(Unfit::Field);
    }
    if 65536 < words {
        return Err(Unfit::List);
    }
    if 1000000 < budget {
        return Err(Unfit::Budget);
    }
    Ok(())
}
