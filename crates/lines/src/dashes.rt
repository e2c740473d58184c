// Which dots of a line are painted: all, or those of a pattern of 32 bits.
ghost use Rattle.std.specs.Prelude.{◌≡◌, ℕ};
ghost use Rattle.lines.specs.Dashes as Dashes;

// The pattern paints the dot with this number: bit 0 is the lowest, and after bit 31 comes bit 0 again.
pub fn lit(pattern: u32, number: u32) -> bool
    ensures { result ≡ Dashes.lit pattern number }
{
    (pattern >> (number % 32)) % 2 == 1
}

// What says of a dot, by its number, whether it is painted: as its bits would.
pub trait Pattern: Copy {
    ghost bits: { Self → ℕ };

    fn paints(self, number: u32) -> bool
        ensures { result ≡ Dashes.lit (bits self) number };
}

// All ones, of which nothing is asked.
#[derive(Clone, Copy)]
pub struct Solid;

impl Pattern for Solid {
    ghost bits = { λ s. Dashes.solid };

    fn paints(self, _number: u32) -> bool {
        true
    }
}

// Any bits.
#[derive(Clone, Copy)]
pub struct Dashed {
    pub pattern: u32,
}

impl Pattern for Dashed {
    ghost bits = { λ d. d.pattern };

    fn paints(self, number: u32) -> bool {
        lit(self.pattern, number)
    }
}
