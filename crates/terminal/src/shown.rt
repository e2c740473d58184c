// A screen, the size of its picture in a window, and the colours of the picture's dots.
ghost use Rattle.std.specs.Prelude.{◌≡◌, ◌*◌, ◌≤◌, ◌<◌, length, MatchOption};
ghost use Rattle.terminal.specs.Lights.{dark, with_dots};
ghost use Rattle.terminal.specs.Lines.{dot_of};
ghost use Rattle.terminal.specs.Means.{rows};
ghost use Rattle.terminal.specs.Spans.{Inside};
ghost use Rattle.terminal.specs.Views.{Sound};

use crate::fit::View;
use crate::light::Light;
use crate::span::{Span, share};
use picture::palette::Colour;

// The screen has the dots of the view's width and height.
#[derive(Clone, Copy)]
pub struct Shown<'a> {
    pub screen: &'a [u8],
    pub view: View,
    ghost sound: { Sound view },
    ghost whole: { view.width * view.height ≤ length screen.now },
}

impl<'a> Shown<'a> {
    // None where the screen has not as many dots.
    pub fn new(screen: &'a [u8], view: View) -> Option<Shown<'a>>
        requires { Sound view }
        ensures { MatchOption result (length screen.now < view.width * view.height) (λ s. (s.screen.now ≡ screen.now) × (s.view ≡ view)) }
    {
        if screen.len() < view.width * view.height {
            return None;
        }
        Some(Shown { screen, view })
    }

    // The colour of the picture's dot.
    pub(crate) fn dot(&self, i: usize, j: usize) -> Colour
        requires i_lt_columns { (i < self.now.view.columns) × (j < self.now.view.lines) }
        ensures { result ≡ dot_of self.now.screen.now self.now.view i j }
    {
        let across = share(i, self.view.columns, self.view.width);
        let down = share(j, self.view.lines, self.view.height);
        let dots = across.count * down.count;
        self.light(across, down).shade(dots as u64)
    }

    // The light of a part, row by row.
    fn light(&self, across: Span, down: Span) -> Light
        requires across_inside { Inside across self.now.view.width }
        requires down_inside { Inside down self.now.view.height }
        ensures { result ≡ with_dots dark (rows self.now.screen.now self.now.view.width across down.from down.count) }
    {
        let mut light = Light::DARK;
        for n in 0..down.count {
            let from = (down.from + n) * self.view.width + across.from;
            light = light.with_dots(&self.screen[from..from + across.count]);
        }
        light
    }
}
