// The mean light of dots: of red, green and blue each the root of the mean of the squares.
ghost use Rattle.std.specs.Prelude.{◌≡◌, ◌^◌, ◌≤◌, length};
ghost use Rattle.terminal.specs.Lights.{square as square_of, with_colour, with_dots, root_of, shade as shade_of, Grown, Small};

use picture::palette::{Colour, colour_of};

// The sums of the squares.
#[derive(Clone, Copy)]
pub struct Light {
    pub red: u64,
    pub green: u64,
    pub blue: u64,
}

impl Light {
    pub(crate) const DARK: Light = Light {
        red: 0,
        green: 0,
        blue: 0,
    };

    fn with_colour(self, colour: Colour) -> Light
        requires { Small self (2 ^ 60) }
        ensures value { result ≡ with_colour self colour }
        ensures grown { Grown self result 65025 }
    {
        Light {
            red: self.red + square(colour.red),
            green: self.green + square(colour.green),
            blue: self.blue + square(colour.blue),
        }
    }

    // At most a row of the screen.
    pub(crate) fn with_dots(self, dots: &[u8]) -> Light
        requires small { Small self (2 ^ 50) }
        requires dots_len_bound { length dots.now ≤ 2048 }
        ensures value { result ≡ with_dots self dots.now }
        ensures grown { Grown self result 133171200 }
    {
        let mut light = self;
        for dot in dots {
            light = light.with_colour(colour_of(*dot));
        }
        light
    }

    pub(crate) fn shade(self, dots: u64) -> Colour
        requires { 1 ≤ dots }
        ensures { result ≡ shade_of self dots }
    {
        Colour {
            red: root(self.red / dots),
            green: root(self.green / dots),
            blue: root(self.blue / dots),
        }
    }
}

fn square(v: u8) -> u64
    ensures value { result ≡ square_of v }
    ensures upper_bound { result ≤ 65025 }
{
    let wide = u64::from(v);
    wide * wide
}

// The largest number up to 255 whose square is at most n. White needs no search; for the rest eight halvings do.
fn root(n: u64) -> u8
    ensures { result ≡ root_of n }
{
    if 65025 <= n {
        return 255;
    }
    (n as u16).isqrt() as u8
}
