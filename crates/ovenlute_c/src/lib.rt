// Ovenlute's face for C: include/ovenlute.h has these functions. Each is the library's own, and promises what that promises.
#![tactic(auto)]

ghost use Rattle.std.specs.Prelude.{◌≡◌};
ghost use Rattle.lit.specs.Lit.{lit_of};
ghost use Rattle.rules.specs.Door.{Promise};
ghost use Rattle.rules.specs.Fresh as Fresh;
ghost use Rattle.wording.specs.Wording.{text_of, words_of};

use lit::LitDots;
use ovenlute::Done;
use raster::frame::Pane;
use rules::answer::Made;
use rules::environment::Env;
use wording::Words;

// A run over an environment that is lent, and changed there.
#[unsafe(no_mangle)]
pub extern "C" fn ovenlute_run(list: &[u16], screen: &mut [u8], env: &mut Env, budget: u32) -> Done
    ensures { Promise list.now screen.old env.old budget
        (record { number = result.number; place = result.place; env = env.new; steps = result.steps }) screen.new }
{
    ovenlute::ovenlute_run(list, screen, env, budget)
}

// A fresh environment.
#[unsafe(no_mangle)]
pub extern "C" fn ovenlute_fresh(width: u32, height: u32, pane: Pane) -> Made
    ensures { Fresh.Promise (record { width = width; height = height; pane = pane }) result }
{
    ovenlute::ovenlute_fresh(width, height, pane)
}

// How many dots of a dashed line light up.
#[unsafe(no_mangle)]
pub extern "C" fn ovenlute_lit(length: u32, pattern: u32) -> LitDots
    ensures { result ≡ lit_of length pattern }
{
    ovenlute::ovenlute_lit(length, pattern)
}

// The words for a number.
#[unsafe(no_mangle)]
pub extern "C" fn ovenlute_text(number: u8) -> Words
    ensures { result ≡ words_of (text_of number) }
{
    ovenlute::ovenlute_text(number)
}
