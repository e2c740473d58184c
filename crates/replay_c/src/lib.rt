// The replay's face for C: include/ovenlute.h has these functions. Each is the library's own, and promises what that promises.
#![tactic(auto)]

ghost use Rattle.record.specs.Append as Append;
ghost use Rattle.replay.specs.Replay.{Promise};

use record::Recorded;
use replay::Replayed;
use rules::environment::Env;

// Any list, any screen, any environment, any bytes as a record.
#[unsafe(no_mangle)]
pub extern "C" fn ovenlute_replay(
    list: &[u16],
    screen: &mut [u8],
    env: Env,
    lines: &[u8],
) -> Replayed
    ensures { Promise list.now lines.now env screen.old result screen.new }
{
    replay::ovenlute_replay(list, screen, env, lines)
}

// One block more of a record.
#[unsafe(no_mangle)]
pub extern "C" fn ovenlute_record(
    lines: &mut [u8],
    used: usize,
    budget: u64,
    answer: u64,
    steps: u64,
) -> Recorded
    ensures { Append.Promise lines.old used budget answer steps result lines.new }
{
    replay::ovenlute_record(lines, used, budget, answer, steps)
}
