// What the arguments ask for: check LIST; mend LIST; who LIST WIDTH HEIGHT X Y [LEFT TOP RIGHT BOTTOM] [BUDGET]; or a form of the
// picture, and behind it [painted] LIST WIDTH HEIGHT [LEFT TOP RIGHT BOTTOM] [BUDGET] or [painted] page PAGE WIDTH HEIGHT [BUDGET].
ghost use Rattle.std.specs.Prelude.{◌≡◌, ◌≤◌};
ghost use Rattle.errand.specs.Panes.{whole as whole_screen};

use crate::number::{is_number, number};
use crate::say::{no_number, usage};
use outside::arguments::{arg, arg_count};
use raster::frame::Pane;

// A picture file, or the characters of a terminal's window: columns, rows, and the bits of a colour, 8 or 24.
#[derive(Clone, Copy)]
pub enum Form {
    Ppm,
    Png,
    Cells(Window),
}

#[derive(Clone, Copy)]
pub struct Window {
    pub columns: u32,
    pub rows: u32,
    pub bits: u32,
}

// The picture's form, and whether every dot has the colour of the opcode that painted it.
#[derive(Clone, Copy)]
pub struct Look {
    pub form: Form,
    pub painted: bool,
}

// Which argument names the list or the page, the screen's size, a pane, and the budget of each list.
#[derive(Clone, Copy)]
pub struct Given {
    pub first: usize,
    pub width: u32,
    pub height: u32,
    pub pane: Pane,
    pub budget: u32,
}

// A list or a page to play; a list to check or to mend, whose name is that argument; a list and the dot, its column and row, whose
// painter is to be named.
#[derive(Clone, Copy)]
pub enum Wish {
    List(Given, Look),
    Page(Given, Look),
    Check(usize),
    Mend(usize),
    Who(Given, u32, u32),
}

// The largest budget, and that of a list where none is given.
pub const BUDGET: u32 = 1_000_000;

// What is asked; or a line has told what is wrong.
pub fn asked(rt: HostRuntime) -> Option<Wish> {
    let mut room = [0u8; 8];
    let n = arg(&rt, 1, &mut room);
    match &room[..n] {
        b"check" => Some(Wish::Check(alone(rt, 2)?)),
        b"mend" => Some(Wish::Mend(alone(rt, 2)?)),
        b"who" => who_asked(rt, 2),
        b"ppm" => behind(rt, 2, Form::Ppm),
        b"png" => behind(rt, 2, Form::Png),
        b"cells" => {
            let window = Window {
                columns: argument(rt, 2),
                rows: argument(rt, 3),
                bits: argument(rt, 4),
            };
            behind(rt, 5, Form::Cells(window))
        }
        _ => wrong(rt),
    }
}

fn wrong<T>(rt: HostRuntime) -> Option<T> {
    usage(&rt.stderr());
    None
}

fn is(rt: HostRuntime, i: usize, word: &[u8]) -> bool {
    let mut room = [0u8; 8];
    let n = arg(&rt, i, &mut room);
    &room[..n] == word
}

fn argument(rt: HostRuntime, i: usize) -> u32 {
    let mut digits = io::buffer();
    let n = arg(&rt, i, &mut digits);
    number(&digits[..n])
}

// The picture that is asked for by the arguments from `first` on.
fn behind(rt: HostRuntime, first: usize, form: Form) -> Option<Wish>
    requires { first ≤ 5 }
{
    let painted = is(rt, first, b"painted");
    let first = if painted { first + 1 } else { first };
    let look = Look { form, painted };
    if is(rt, first, b"page") {
        Some(Wish::Page(page_asked(rt, first + 1)?, look))
    } else {
        Some(Wish::List(list_asked(rt, first)?, look))
    }
}

// The argument `first`, where it is the last.
fn alone(rt: HostRuntime, first: usize) -> Option<usize> {
    if from(rt, first) == 1 {
        Some(first)
    } else {
        wrong(rt)
    }
}

// A page or a list on the whole screen: WIDTH HEIGHT [BUDGET].
fn page_asked(rt: HostRuntime, first: usize) -> Option<Given>
    requires { first ≤ 7 }
{
    match from(rt, first) {
        3 => {
            let [width, height] = numbers::<2>(rt, first, &["width", "height"])?;
            Some(on_whole(first, width, height, BUDGET))
        }
        4 => {
            let [width, height, budget] = numbers::<3>(rt, first, &["width", "height", "budget"])?;
            Some(on_whole(first, width, height, budget))
        }
        _ => wrong(rt),
    }
}

// The same, or with a pane: WIDTH HEIGHT [LEFT TOP RIGHT BOTTOM] [BUDGET].
fn list_asked(rt: HostRuntime, first: usize) -> Option<Given>
    requires { first ≤ 6 }
{
    match from(rt, first) {
        7 => {
            let names = &["width", "height", "left", "top", "right", "bottom"];
            let [width, height, left, top, right, bottom] = numbers::<6>(rt, first, names)?;
            Some(on_part(first, [width, height], [left, top, right, bottom], BUDGET))
        }
        8 => {
            let names = &[
                "width", "height", "left", "top", "right", "bottom", "budget",
            ];
            let [width, height, left, top, right, bottom, budget] = numbers::<7>(rt, first, names)?;
            Some(on_part(first, [width, height], [left, top, right, bottom], budget))
        }
        _ => page_asked(rt, first),
    }
}

// The dot stands between the size and the pane.
fn who_asked(rt: HostRuntime, first: usize) -> Option<Wish>
    requires { first ≤ 2 }
{
    match from(rt, first) {
        5 => {
            let [width, height, x, y] = numbers::<4>(rt, first, &["width", "height", "x", "y"])?;
            Some(Wish::Who(on_whole(first, width, height, BUDGET), x, y))
        }
        6 => {
            let names = &["width", "height", "x", "y", "budget"];
            let [width, height, x, y, budget] = numbers::<5>(rt, first, names)?;
            Some(Wish::Who(on_whole(first, width, height, budget), x, y))
        }
        9 => {
            let names = &[
                "width", "height", "x", "y", "left", "top", "right", "bottom",
            ];
            let [width, height, x, y, left, top, right, bottom] = numbers::<8>(rt, first, names)?;
            let given = on_part(first, [width, height], [left, top, right, bottom], BUDGET);
            Some(Wish::Who(given, x, y))
        }
        10 => {
            let names = &[
                "width", "height", "x", "y", "left", "top", "right", "bottom", "budget",
            ];
            let [width, height, x, y, left, top, right, bottom, budget] = numbers::<9>(
                rt, first, names,
            )?;
            let given = on_part(first, [width, height], [left, top, right, bottom], budget);
            Some(Wish::Who(given, x, y))
        }
        _ => wrong(rt),
    }
}

// How many arguments there are from `first` on.
fn from(rt: HostRuntime, first: usize) -> usize {
    arg_count(&rt).saturating_sub(first)
}

// The numbers behind the argument `first`, each by its name; the first that is none gets a line, under it.
fn numbers<const N: usize>(rt: HostRuntime, first: usize, names: &[&str]) -> Option<[u32; N]>
    requires { first ≤ 7 }
{
    let mut numbers = [0; N];
    let places = first + 1..usize::MAX;
    for ((number, name), i) in numbers.iter_mut().zip(names).zip(places) {
        *number = number_at(rt, i, name)?;
    }
    Some(numbers)
}

fn number_at(rt: HostRuntime, i: usize, name: &str) -> Option<u32> {
    let mut room = io::buffer();
    let n = arg(&rt, i, &mut room);
    let given = &room[..n];
    if !is_number(given) {
        no_number(&rt.stderr(), b"play", name, given);
        return None;
    }
    Some(number(given))
}

// The whole screen for a pane.
fn on_whole(first: usize, width: u32, height: u32, budget: u32) -> Given {
    Given {
        first,
        width,
        height,
        pane: whole(width, height),
        budget,
    }
}

// A pane by its sides: left, top, right, bottom.
fn on_part(first: usize, size: [u32; 2], sides: [u32; 4], budget: u32) -> Given {
    let [width, height] = size;
    let [left, top, right, bottom] = sides;
    Given {
        first,
        width,
        height,
        pane: Pane {
            left,
            top,
            right,
            bottom,
        },
        budget,
    }
}

// A pane as large as the screen. A side of 0 is refused before its pane is looked at.
fn whole(width: u32, height: u32) -> Pane
    ensures { result ≡ whole_screen width height }
{
    Pane {
        left: 0,
        top: 0,
        right: width.wrapping_sub(1),
        bottom: height.wrapping_sub(1),
    }
}
