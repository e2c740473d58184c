// In which colour an opcode paints.
ghost use Rattle.std.specs.Prelude.{◌≡◌, ℕ};
ghost use Rattle.numbers.specs.declared.place.WordIndex.{WordIndex as Index};

use numbers::place::WordIndex;

// Told by the opcode's word index and the colour that it has by the rules.
pub trait Ink {
    ghost hue: { Self → Index → ℕ → ℕ };

    fn colour(&self, opcode: WordIndex, own: u8) -> u8
        ensures { result ≡ hue self.now opcode own };
}

// The colour by the rules.
#[derive(Clone, Copy)]
pub struct Own;

impl Ink for Own {
    ghost hue = { λ ink opcode own. own };

    fn colour(&self, opcode: WordIndex, own: u8) -> u8 {
        own
    }
}
