// A list is run with every opcode painting in a tint, so that a picture shows who painted what.
#![tactic(auto)]

ghost use Rattle.std.specs.Prelude.{◌≡◌};
ghost use Rattle.tint.specs.Tint.{tint, Promise};

use numbers::place::WordIndex;
use rules::answer::Answer;
use rules::environment::Env;
use run::ink::Ink;
use run::run::run_in;

// Each opcode has a tint, told by its index.
#[derive(Clone, Copy)]
struct Tint;

impl Ink for Tint {
    ghost hue = { λ ink opcode own. tint opcode };

    fn colour(&self, opcode: WordIndex, own: u8) -> u8 {
        tint_of(opcode)
    }
}

// Of the opcode at this index. 64 bits hold the product, whatever the index.
fn tint_of(i: WordIndex) -> u8
    ensures { result ≡ tint i }
{
    (16 + i.0 as u64 * 149 % 240) as u8
}

// As `run::run::run`, with other colours on the screen.
pub fn tinted(list: &[u16], screen: &mut [u8], env: Env, budget: u32) -> Answer
    ensures { Promise list.now screen.old env budget result screen.new }
{
    run_in(list, screen, env, budget, &Tint)
}
