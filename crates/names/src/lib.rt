// An opcode's name, and how many variables an operand of it takes: crates/names/specs/Names.antt has both.
#![tactic(auto)]

ghost use Rattle.std.specs.Prelude.{◌≡◌};
ghost use Rattle.text.specs.Bytes.{bytes};
ghost use Rattle.rules.specs.Meaning as Meaning;
ghost use Rattle.wording.specs.Wording.{words_of};
ghost use Rattle.names.specs.Names.{flow_name, value_name, pen_name, paint_name, name_of, variables_of};

use rules::opcode::{FlowForm, Form, PaintForm, PenForm, ValueForm};
use wording::{Words, padded};

// The name of an opcode, as the AFGIS manual has it.
pub fn name_of(form: Form) -> Words
    ensures { result ≡ words_of (bytes (name_of form)) }
{
    match form {
        Form::Unknown => padded(b"no opcode"),
        Form::Flow(f) => flow_name(f),
        Form::Value(f) => value_name(f),
        Form::Pen(f) => pen_name(f),
        Form::Paint(f) => paint_name(f),
    }
}

fn flow_name(form: FlowForm) -> Words
    ensures { result ≡ words_of (bytes (flow_name form)) }
{
    match form {
        FlowForm::Noop => padded(b"NOOP"),
        FlowForm::Eodl => padded(b"EODL"),
        FlowForm::Cal => padded(b"CAL"),
        FlowForm::Calv => padded(b"CALV"),
        FlowForm::Erpt => padded(b"ERPT"),
        FlowForm::Rpt => padded(b"RPT"),
        FlowForm::Rtrn => padded(b"RTRN"),
        FlowForm::Jumpa => padded(b"JUMPA"),
        FlowForm::Jumpr => padded(b"JUMPR"),
        FlowForm::Calr => padded(b"CALR"),
        FlowForm::Calrv => padded(b"CALRV"),
    }
}

fn value_name(form: ValueForm) -> Words
    ensures { result ≡ words_of (bytes (value_name form)) }
{
    match form {
        ValueForm::Adiv => padded(b"ADIV"),
        ValueForm::Advv => padded(b"ADVV"),
        ValueForm::Andiv => padded(b"ANDIV"),
        ValueForm::Andvv => padded(b"ANDVV"),
        ValueForm::Cpiv => padded(b"CPIV"),
        ValueForm::Cpvv => padded(b"CPVV"),
        ValueForm::Dcrv => padded(b"DCRV"),
        ValueForm::Divv => padded(b"DIVV"),
        ValueForm::Incv => padded(b"INCV"),
        ValueForm::Ldiv => padded(b"LDIV"),
        ValueForm::Ldivl => padded(b"LDIVL"),
        ValueForm::Ldvv => padded(b"LDVV"),
        ValueForm::Mltv => padded(b"MLTV"),
        ValueForm::Modv => padded(b"MODV"),
        ValueForm::Oriv => padded(b"ORIV"),
        ValueForm::Orvv => padded(b"ORVV"),
    }
}

fn pen_name(form: PenForm) -> Words
    ensures { result ≡ words_of (bytes (pen_name form)) }
{
    match form {
        PenForm::Clipmode => padded(b"CLIPMODE"),
        PenForm::Clipmodev => padded(b"CLIPMODEV"),
        PenForm::Clipwin => padded(b"CLIPWIN"),
        PenForm::Clipwinv => padded(b"CLIPWINV"),
        PenForm::Colorf => padded(b"COLORF"),
        PenForm::Colorfv => padded(b"COLORFV"),
        PenForm::Linepatn => padded(b"LINEPATN"),
        PenForm::Linepatnv => padded(b"LINEPATNV"),
        PenForm::Moveto => padded(b"MOVETO"),
        PenForm::Movetov => padded(b"MOVETOV"),
        PenForm::Movetor => padded(b"MOVETOR"),
        PenForm::Movetorv => padded(b"MOVETORV"),
        PenForm::Xyorg => padded(b"XYORG"),
        PenForm::Xyorgv => padded(b"XYORGV"),
    }
}

fn paint_name(form: PaintForm) -> Words
    ensures { result ≡ words_of (bytes (paint_name form)) }
{
    match form {
        PaintForm::Cir => padded(b"CIR"),
        PaintForm::Cirv => padded(b"CIRV"),
        PaintForm::Cirs => padded(b"CIRS"),
        PaintForm::Cirsv => padded(b"CIRSV"),
        PaintForm::Line => padded(b"LINE"),
        PaintForm::Linev => padded(b"LINEV"),
        PaintForm::Lineto => padded(b"LINETO"),
        PaintForm::Linetov => padded(b"LINETOV"),
        PaintForm::Linetor => padded(b"LINETOR"),
        PaintForm::Linetorv => padded(b"LINETORV"),
        PaintForm::Pixel => padded(b"PIXEL"),
        PaintForm::Pixelv => padded(b"PIXELV"),
        PaintForm::Pixelc => padded(b"PIXELC"),
        PaintForm::Pixelcv => padded(b"PIXELCV"),
        PaintForm::Clrwin => padded(b"CLRWIN"),
        PaintForm::Clrwinv => padded(b"CLRWINV"),
    }
}

// How many variables an operand of an opcode names or implies, at most.
pub fn variables_of(form: Form) -> u16
    ensures { result ≡ variables_of (Meaning.meaning form) }
{
    match form {
        Form::Unknown => 0,
        Form::Flow(f) => flow_variables(f),
        Form::Value(f) => value_variables(f),
        Form::Pen(f) => pen_variables(f),
        Form::Paint(f) => paint_variables(f),
    }
}

fn flow_variables(form: FlowForm) -> u16
    ensures { result ≡ variables_of (Meaning.flow form) }
{
    match form {
        FlowForm::Noop => 0,
        FlowForm::Eodl => 0,
        FlowForm::Cal => 0,
        FlowForm::Calv => 1,
        FlowForm::Erpt => 0,
        FlowForm::Rpt => 0,
        FlowForm::Rtrn => 0,
        FlowForm::Jumpa => 0,
        FlowForm::Jumpr => 0,
        FlowForm::Calr => 0,
        FlowForm::Calrv => 1,
    }
}

fn value_variables(form: ValueForm) -> u16
    ensures { result ≡ variables_of (Meaning.value form) }
{
    1
}

fn pen_variables(form: PenForm) -> u16
    ensures { result ≡ variables_of (Meaning.pen form) }
{
    match form {
        PenForm::Clipmode => 0,
        PenForm::Clipmodev => 1,
        PenForm::Clipwin => 0,
        PenForm::Clipwinv => 4,
        PenForm::Colorf => 0,
        PenForm::Colorfv => 1,
        PenForm::Linepatn => 0,
        PenForm::Linepatnv => 1,
        PenForm::Moveto => 0,
        PenForm::Movetov => 2,
        PenForm::Movetor => 0,
        PenForm::Movetorv => 2,
        PenForm::Xyorg => 0,
        PenForm::Xyorgv => 2,
    }
}

fn paint_variables(form: PaintForm) -> u16
    ensures { result ≡ variables_of (Meaning.paint form) }
{
    match form {
        PaintForm::Cir => 0,
        PaintForm::Cirv => 4,
        PaintForm::Cirs => 0,
        PaintForm::Cirsv => 4,
        PaintForm::Line => 0,
        PaintForm::Linev => 5,
        PaintForm::Lineto => 0,
        PaintForm::Linetov => 3,
        PaintForm::Linetor => 0,
        PaintForm::Linetorv => 3,
        PaintForm::Pixel => 0,
        PaintForm::Pixelv => 2,
        PaintForm::Pixelc => 0,
        PaintForm::Pixelcv => 3,
        PaintForm::Clrwin => 0,
        PaintForm::Clrwinv => 2,
    }
}
