// The face for C of who painted a dot: include/ovenlute.h has this function. It is the library's own, and promises what that promises.
#![tactic(auto)]

ghost use Rattle.who.specs.Who.{Promise};

use raster::dots::Dot;
use rules::environment::Env;
use who::Writer;

// Any list, environment, budget and dot.
#[unsafe(no_mangle)]
pub extern "C" fn ovenlute_who(list: &[u16], env: Env, budget: u32, dot: Dot) -> Writer
    ensures { Promise list.now env budget dot result }
{
    who::ovenlute_who(list, env, budget, dot)
}
