// The fields of the environment that are no arrays: their names, and the values that they take; and the two parts of a repeat.
ghost use Rattle.std.specs.Prelude.{◌≡◌};
ghost use Rattle.desk.specs.Fields.{field_of, kind_of, kind_of_register, read_as};

use crate::table::beside;
use text::number::{Flaw, at_most, signed, unsigned};

#[derive(Clone, Copy)]
pub enum Field {
    Bound(Bound),
    Position(Axis),
    Origin(Axis),
    Corner(Corner),
    Register(Register),
    Nesting,
}

#[derive(Clone, Copy)]
pub enum Bound {
    Width,
    Height,
    Left,
    Top,
    Right,
    Bottom,
}

#[derive(Clone, Copy)]
pub enum Axis {
    X,
    Y,
}

#[derive(Clone, Copy)]
pub enum Corner {
    X0,
    Y0,
    X1,
    Y1,
}

#[derive(Clone, Copy)]
pub enum Register {
    Mode,
    Pattern,
    First,
    Second,
    Counter,
    Depth,
    Place,
    Colour,
    State,
}

// Where the block of a repeat begins, and how many passes are left.
#[derive(Clone, Copy)]
pub enum Part {
    Start,
    Left,
}

const FIELDS: [(&[u8], Field); 24] = [
    (b"width", Field::Bound(Bound::Width)),
    (b"height", Field::Bound(Bound::Height)),
    (b"left", Field::Bound(Bound::Left)),
    (b"top", Field::Bound(Bound::Top)),
    (b"right", Field::Bound(Bound::Right)),
    (b"bottom", Field::Bound(Bound::Bottom)),
    (b"x", Field::Position(Axis::X)),
    (b"y", Field::Position(Axis::Y)),
    (b"ox", Field::Origin(Axis::X)),
    (b"oy", Field::Origin(Axis::Y)),
    (b"x0", Field::Corner(Corner::X0)),
    (b"y0", Field::Corner(Corner::Y0)),
    (b"x1", Field::Corner(Corner::X1)),
    (b"y1", Field::Corner(Corner::Y1)),
    (b"mode", Field::Register(Register::Mode)),
    (b"pattern", Field::Register(Register::Pattern)),
    (b"first", Field::Register(Register::First)),
    (b"second", Field::Register(Register::Second)),
    (b"counter", Field::Register(Register::Counter)),
    (b"depth", Field::Register(Register::Depth)),
    (b"place", Field::Register(Register::Place)),
    (b"colour", Field::Register(Register::Colour)),
    (b"state", Field::Register(Register::State)),
    (b"nesting", Field::Nesting),
];

pub fn field_of(name: &[u8]) -> Option<Field>
    ensures { result ≡ field_of name.now }
{
    beside(&FIELDS, name)
}

// How a value is read.
#[derive(Clone, Copy)]
enum Kind {
    Unsigned,
    Signed,
    Byte,
}

fn kind_of(field: Field) -> Kind
    ensures { result ≡ kind_of field }
{
    match field {
        Field::Bound(_) | Field::Nesting => Kind::Unsigned,
        Field::Position(_) | Field::Origin(_) | Field::Corner(_) => Kind::Signed,
        Field::Register(register) => kind_of_register(register),
    }
}

fn kind_of_register(register: Register) -> Kind
    ensures { result ≡ kind_of_register register }
{
    match register {
        Register::First | Register::Second => Kind::Signed,
        Register::Colour | Register::State => Kind::Byte,
        Register::Mode
        | Register::Pattern
        | Register::Counter
        | Register::Depth
        | Register::Place => Kind::Unsigned,
    }
}

// The value's bits.
pub fn read_value(field: Field, value: &[u8]) -> Result<u32, Flaw>
    ensures { result ≡ read_as (kind_of field) value.now }
{
    match kind_of(field) {
        Kind::Unsigned => unsigned(value),
        Kind::Signed => signed(value),
        Kind::Byte => at_most(value, 255),
    }
}
