// Sets one field of the environment: 'set NAME VALUE'.
ghost use Rattle.std.specs.Prelude.{◌≡◌, ◌≤◌, IfOk};
ghost use Rattle.text.specs.Number.{decimal_of};
ghost use Rattle.desk.specs.Sets.{with_bound, with_axis, with_corner, with_register, with_field, with_part, up_to as up_to_of, set_variable, set_return, set_repeat, set_known, set_field};

use crate::desk::Desk;
use crate::fault::Fault;
use crate::field::{Axis, Bound, Corner, Field, Part, Register, field_of, read_value};
use numbers::place::WordIndex;
use numbers::value::to_signed;
use raster::dots::Dot;
use raster::frame::{Bounds, Pane, Window};
use rules::environment::{Env, Registers, Repeat};
use text::number::{at_most, signed, unsigned};

pub fn set_field(desk: Desk, name: &[u8], value: &[u8]) -> Result<Desk, Fault>
    ensures { result ≡ set_field desk name.now value.now }
{
    let Some((letter, number)) = name.split_first() else {
        return Err(Fault::NoField);
    };
    match *letter {
        b'V' => set_variable(desk, number, value),
        b'S' => set_return(desk, number, value),
        b'B' => set_repeat(desk, Part::Start, number, value),
        b'P' => set_repeat(desk, Part::Left, number, value),
        _ => set_known(desk, field_of(name).ok_or(Fault::NoField)?, value),
    }
}

fn set_variable(desk: Desk, number: &[u8], value: &[u8]) -> Result<Desk, Fault>
    ensures { result ≡ set_variable desk number.now value.now }
{
    let at = up_to(63, number)?;
    let mut env = desk.env;
    env.variables[at] = signed(value)?;
    Ok(desk.with_env(env))
}

fn set_return(desk: Desk, number: &[u8], value: &[u8]) -> Result<Desk, Fault>
    ensures { result ≡ set_return desk number.now value.now }
{
    let at = up_to(15, number)?;
    let mut env = desk.env;
    env.stack[at] = WordIndex(unsigned(value)?);
    Ok(desk.with_env(env))
}

fn set_repeat(desk: Desk, part: Part, number: &[u8], value: &[u8]) -> Result<Desk, Fault>
    ensures { result ≡ set_repeat desk part number.now value.now }
{
    let at = up_to(7, number)?;
    let mut env = desk.env;
    env.repeats[at] = with_part(env.repeats[at], part, unsigned(value)?);
    Ok(desk.with_env(env))
}

// The number behind a field's letter: one above the last names no field.
#[tactic(auto, unfolding(text::specs::Number::at_most))]
fn up_to(last: u32, number: &[u8]) -> Result<usize, Fault>
    ensures value { result ≡ up_to_of last (decimal_of number.now) }
    ensures upper_bound { IfOk result (λ at. at ≤ last) }
{
    match at_most(number, last) {
        Ok(at) => Ok(at as usize),
        Err(_) => Err(Fault::NoField),
    }
}

fn with_part(repeat: Repeat, part: Part, n: u32) -> Repeat
    ensures { result ≡ with_part part n repeat }
{
    match part {
        Part::Start => Repeat {
            start: WordIndex(n),
            ..repeat
        },
        Part::Left => Repeat { left: n, ..repeat },
    }
}

fn set_known(desk: Desk, field: Field, value: &[u8]) -> Result<Desk, Fault>
    ensures { result ≡ set_known desk field value.now }
{
    let bits = read_value(field, value)?;
    Ok(desk.with_env(with_field(desk.env, field, bits)))
}

fn with_field(env: Env, field: Field, bits: u32) -> Env
    ensures { result ≡ with_field field bits env }
{
    let mut after = env;
    let registers = &mut after.registers;
    match field {
        Field::Bound(bound) => after.bounds = with_bound(env.bounds, bound, bits),
        Field::Position(axis) => registers.position = with_axis(
            registers.position,
            axis,
            to_signed(bits),
        ),
        Field::Origin(axis) => registers.origin = with_axis(
            registers.origin,
            axis,
            to_signed(bits),
        ),
        Field::Corner(corner) => registers.window = with_corner(
            registers.window,
            corner,
            to_signed(bits),
        ),
        Field::Register(register) => *registers = with_register(*registers, register, bits),
        Field::Nesting => after.nesting = bits,
    }
    after
}

fn with_bound(bounds: Bounds, bound: Bound, n: u32) -> Bounds
    ensures { result ≡ with_bound bound n bounds }
{
    let pane = bounds.pane;
    match bound {
        Bound::Width => Bounds { width: n, ..bounds },
        Bound::Height => Bounds {
            height: n,
            ..bounds
        },
        Bound::Left => Bounds {
            pane: Pane { left: n, ..pane },
            ..bounds
        },
        Bound::Top => Bounds {
            pane: Pane { top: n, ..pane },
            ..bounds
        },
        Bound::Right => Bounds {
            pane: Pane { right: n, ..pane },
            ..bounds
        },
        Bound::Bottom => Bounds {
            pane: Pane { bottom: n, ..pane },
            ..bounds
        },
    }
}

fn with_axis(dot: Dot, axis: Axis, z: i32) -> Dot
    ensures { result ≡ with_axis axis z dot }
{
    match axis {
        Axis::X => Dot { x: z, ..dot },
        Axis::Y => Dot { y: z, ..dot },
    }
}

fn with_corner(window: Window, corner: Corner, z: i32) -> Window
    ensures { result ≡ with_corner corner z window }
{
    match corner {
        Corner::X0 => Window { x0: z, ..window },
        Corner::Y0 => Window { y0: z, ..window },
        Corner::X1 => Window { x1: z, ..window },
        Corner::Y1 => Window { y1: z, ..window },
    }
}

// Colour and state are bytes.
fn with_register(registers: Registers, register: Register, bits: u32) -> Registers
    ensures { result ≡ with_register register bits registers }
{
    let mut after = registers;
    let index = WordIndex(bits);
    let byte = (bits % 256) as u8;
    match register {
        Register::Mode => after.mode = bits,
        Register::Pattern => after.pattern = bits,
        Register::First => after.first = bits,
        Register::Second => after.second = bits,
        Register::Counter => after.counter = index,
        Register::Depth => after.depth = bits,
        Register::Place => after.place = index,
        Register::Colour => after.colour = byte,
        Register::State => after.state = byte,
    }
    after
}
