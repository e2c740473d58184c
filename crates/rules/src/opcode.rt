// Document 01, 'Opcodes of the base', and document 02, T-01, T-03, T-06 and T-09: the opcodes by their names on the paper, and what was read behind one.
use numbers::place::VarNo;

// Those that go elsewhere, repeat, end or do nothing,
#[derive(Clone, Copy, Debug, PartialEq, Eq)]
pub enum FlowForm {
    Noop,
    Eodl,
    Cal,
    Calv,
    Erpt,
    Rpt,
    Rtrn,
    Jumpa,
    Jumpr,
    Calr,
    Calrv,
}

// those of the variables and the values compared,
#[derive(Clone, Copy, Debug, PartialEq, Eq)]
pub enum ValueForm {
    Adiv,
    Advv,
    Andiv,
    Andvv,
    Cpiv,
    Cpvv,
    Dcrv,
    Divv,
    Incv,
    Ldiv,
    Ldivl,
    Ldvv,
    Mltv,
    Modv,
    Oriv,
    Orvv,
}

// those that set what is drawn with,
#[derive(Clone, Copy, Debug, PartialEq, Eq)]
pub enum PenForm {
    Clipmode,
    Clipmodev,
    Clipwin,
    Clipwinv,
    Colorf,
    Colorfv,
    Linepatn,
    Linepatnv,
    Moveto,
    Movetov,
    Movetor,
    Movetorv,
    Xyorg,
    Xyorgv,
}

// and those that paint.
#[derive(Clone, Copy, Debug, PartialEq, Eq)]
pub enum PaintForm {
    Cir,
    Cirv,
    Cirs,
    Cirsv,
    Line,
    Linev,
    Lineto,
    Linetov,
    Linetor,
    Linetorv,
    Pixel,
    Pixelv,
    Pixelc,
    Pixelcv,
    Clrwin,
    Clrwinv,
}

#[derive(Clone, Copy, Debug, PartialEq, Eq)]
pub enum Form {
    Unknown,
    Flow(FlowForm),
    Value(ValueForm),
    Pen(PenForm),
    Paint(PaintForm),
}

// What was read: at most five values of 32 bits, and the variable named as destination.
#[derive(Clone, Copy, Debug, PartialEq, Eq)]
pub struct Operands {
    pub a: u32,
    pub b: u32,
    pub c: u32,
    pub d: u32,
    pub e: u32,
    pub dest: VarNo,
}
