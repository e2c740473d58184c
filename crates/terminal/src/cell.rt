// The bytes of a character: the upper half block, with the upper dot's colour on the lower dot's.
ghost use Rattle.std.specs.Prelude.{◌≡◌, ◌++◌, ◌+◌, ◌≤◌, length};
ghost use Rattle.text.specs.Bytes.{bytes};
ghost use Rattle.text.specs.Decimal.{decimal};
ghost use Rattle.text.specs.Puts.{Puts};
ghost use Rattle.terminal.specs.Cells.{level as level_of, cube as cube_of, direct, numbered, paint, cell, line_end};

use picture::palette::Colour;
use text::join::put_whole;

// How many colours the terminal has: 24 bits each, or 256.
#[derive(Clone, Copy)]
pub enum Depth {
    Direct,
    Cube,
}

// A room and the place in it are two parameters, as `text::join::put_whole` has them.

pub fn put_cell(upper: Colour, lower: Colour, depth: Depth, room: &mut [u8], at: usize) -> usize
    requires { at + 39 ≤ length room.old }
    ensures { Puts (cell depth upper lower) room.old at room.new result }
{
    let a = put_colour(b"\x1b[38;", upper, depth, room, at);
    let b = put_colour(b";48;", lower, depth, room, a);
    put_whole(b"m\xe2\x96\x80", room, b)
}

// The colours as they were, and a line feed.
pub fn put_line_end(room: &mut [u8], at: usize) -> usize
    requires { at + 5 ≤ length room.old }
    ensures { Puts line_end room.old at room.new result }
{
    put_whole(b"\x1b[0m\n", room, at)
}

// A colour behind some bytes.
fn put_colour(lead: &[u8], colour: Colour, depth: Depth, room: &mut [u8], at: usize) -> usize
    requires { at + (length lead.now + 13) ≤ length room.old }
    ensures { Puts (lead.now ++ paint depth colour) room.old at room.new result }
{
    let behind = put_whole(lead, room, at);
    put_paint(colour, depth, room, behind)
}

#[tactic(auto, unfolding(crate::specs::Cells::paint))]
fn put_paint(colour: Colour, depth: Depth, room: &mut [u8], at: usize) -> usize
    requires { at + 13 ≤ length room.old }
    ensures { Puts (paint depth colour) room.old at room.new result }
{
    match depth {
        Depth::Direct => put_direct(colour, room, at),
        Depth::Cube => put_numbered(colour, room, at),
    }
}

fn put_direct(colour: Colour, room: &mut [u8], at: usize) -> usize
    requires { at + 13 ≤ length room.old }
    ensures { Puts (direct colour) room.old at room.new result }
{
    room[at] = b'2';
    let a = put_number(colour.red, room, at + 1);
    let b = put_number(colour.green, room, a);
    put_number(colour.blue, room, b)
}

fn put_numbered(colour: Colour, room: &mut [u8], at: usize) -> usize
    requires { at + 5 ≤ length room.old }
    ensures { Puts (numbered colour) room.old at room.new result }
{
    room[at] = b'5';
    put_number(cube(colour), room, at + 1)
}

// A number behind a semicolon.
fn put_number(n: u8, room: &mut [u8], at: usize) -> usize
    requires { at + 4 ≤ length room.old }
    ensures { Puts (bytes ";" ++ decimal n) room.old at room.new result }
{
    room[at] = b';';
    put_digits(n, room, at + 1)
}

// Up to three digits, each by a store of its own.
fn put_digits(n: u8, room: &mut [u8], at: usize) -> usize
    requires { at + 3 ≤ length room.old }
    ensures { Puts (decimal n) room.old at room.new result }
{
    if n < 10 {
        room[at] = b'0' + n;
        return at + 1;
    }
    if n < 100 {
        room[at] = b'0' + n / 10;
        room[at + 1] = b'0' + n % 10;
        return at + 2;
    }
    room[at] = b'0' + n / 100;
    room[at + 1] = b'0' + n / 10 % 10;
    room[at + 2] = b'0' + n % 10;
    at + 3
}

// The number of the nearest colour of the 6 x 6 x 6.
fn cube(colour: Colour) -> u8
    ensures { result ≡ cube_of colour }
{
    16 + 36 * level(colour.red) + 6 * level(colour.green) + level(colour.blue)
}

// The nearest of 0, 95, 135, 175, 215 and 255.
#[tactic(auto, unfolding(crate::specs::Cells::level))]
fn level(v: u8) -> u8
    ensures value { result ≡ level_of v }
    ensures upper_bound { result ≤ 5 }
{
    match v {
        0..=47 => 0,
        48..=114 => 1,
        _ => (v - 35) / 40,
    }
}
