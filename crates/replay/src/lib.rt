// Document 02, T-12, evening replay: a record's calls are made again, block by block, and held against what was recorded.
#![tactic(auto)]

ghost use Rattle.std.specs.Prelude.{◌≡◌};
ghost use Rattle.record.specs.Append as Append;
ghost use Rattle.replay.specs.Replay.{Promise, none};

use record::{Malformed, Recorded, append, read_block};
use rules::environment::Env;
use run::run::run;

// What a call answered: its number and its steps.
#[repr(C)]
#[derive(Clone, Copy, PartialEq, Eq)]
pub struct Pair {
    pub answer: u32,
    pub steps: u32,
}

// 0, and all blocks agree, so many; 33 and the block that differs, counted from 1, with what it says and what came now; or 34 and the
// block that is malformed. The environment is as the last run left it. The numbers stay numbers: C reads them.
#[repr(C)]
#[derive(Clone, Copy)]
pub struct Replayed {
    pub number: u8,
    pub block: usize,
    pub recorded: Pair,
    pub came: Pair,
    pub env: Env,
}

// A number that has no pairs.
fn told(number: u8, block: usize, env: Env) -> Replayed
    ensures { result ≡ record { number = number; block = block; recorded = none; came = none; env = env } }
{
    let none = Pair {
        answer: 0,
        steps: 0,
    };
    Replayed {
        number,
        block,
        recorded: none,
        came: none,
        env,
    }
}

// Any list, any screen, any environment, any bytes as a record.
pub fn replay(list: &[u16], screen: &mut [u8], mut env: Env, lines: &[u8]) -> Replayed
    ensures { Promise list.now lines.now env screen.old result screen.new }
{
    let mut rest = lines;
    let mut k = 0; // counted by hand, as the count is what is told, and the text alone says how many there are
    loop {
        let block = match read_block(rest) {
            Ok(None) => return told(0, k, env),
            Err(Malformed) => return told(34, k + 1, env),
            Ok(Some(block)) => block,
        };
        let recorded = Pair {
            answer: block.answer,
            steps: block.steps,
        };
        let r = run(list, screen, env, block.budget);
        let came = Pair {
            answer: u32::from(r.number),
            steps: r.steps,
        };
        env = r.env;
        k += 1;
        if came != recorded {
            return Replayed {
                number: 33,
                block: k,
                recorded,
                came,
                env,
            };
        }
        rest = &rest[block.size..];
    }
}

// The same for C.
pub fn ovenlute_replay(list: &[u16], screen: &mut [u8], env: Env, lines: &[u8]) -> Replayed
    ensures { Promise list.now lines.now env screen.old result screen.new }
{
    replay(list, screen, env, lines)
}

// One block more of a record, for C.
pub fn ovenlute_record(
    lines: &mut [u8],
    used: usize,
    budget: u64,
    answer: u64,
    steps: u64,
) -> Recorded
    ensures { Append.Promise lines.old used budget answer steps result lines.new }
{
    append(lines, used, budget, answer, steps)
}
