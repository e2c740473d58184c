// How an opcode lies in a list, by its form: what those look at who walk a list without playing it.
ghost use Rattle.std.specs.Prelude.{◌≡◌};
ghost use Rattle.rules.specs.Meaning as Meaning;
ghost use Rattle.forms.specs.Layout.{layout_of};

use rules::opcode::{FlowForm, Form, PaintForm, PenForm, ValueForm};

// No opcode; one of so many words behind which the next one is due; a jump, a call or RTRN of so many words; EODL; RPT; ERPT.
#[derive(Clone, Copy)]
pub enum Layout {
    Strange,
    Plain(u32),
    Flow(u32),
    Ends,
    Opens,
    Closes,
}

// No `From` in its place: docs/RULES.md, T-09.1, has it by this name.
pub fn layout_of(form: Form) -> Layout
    ensures { result ≡ layout_of (Meaning.meaning form) }
{
    match form {
        Form::Unknown => Layout::Strange,
        Form::Flow(f) => flow_layout(f),
        Form::Value(f) => value_layout(f),
        Form::Pen(f) => pen_layout(f),
        Form::Paint(f) => paint_layout(f),
    }
}

fn flow_layout(form: FlowForm) -> Layout
    ensures { result ≡ layout_of (Meaning.flow form) }
{
    match form {
        FlowForm::Noop => Layout::Plain(1),
        FlowForm::Eodl => Layout::Ends,
        FlowForm::Cal => Layout::Flow(3),
        FlowForm::Calv => Layout::Flow(2),
        FlowForm::Erpt => Layout::Closes,
        FlowForm::Rpt => Layout::Opens,
        FlowForm::Rtrn => Layout::Flow(1),
        FlowForm::Jumpa => Layout::Flow(4),
        FlowForm::Jumpr => Layout::Flow(3),
        FlowForm::Calr => Layout::Flow(2),
        FlowForm::Calrv => Layout::Flow(2),
    }
}

fn value_layout(form: ValueForm) -> Layout
    ensures { result ≡ layout_of (Meaning.value form) }
{
    match form {
        ValueForm::Adiv => Layout::Plain(4),
        ValueForm::Advv => Layout::Plain(3),
        ValueForm::Andiv => Layout::Plain(4),
        ValueForm::Andvv => Layout::Plain(3),
        ValueForm::Cpiv => Layout::Plain(4),
        ValueForm::Cpvv => Layout::Plain(3),
        ValueForm::Dcrv => Layout::Plain(2),
        ValueForm::Divv => Layout::Plain(3),
        ValueForm::Incv => Layout::Plain(2),
        ValueForm::Ldiv => Layout::Plain(3),
        ValueForm::Ldivl => Layout::Plain(4),
        ValueForm::Ldvv => Layout::Plain(3),
        ValueForm::Mltv => Layout::Plain(3),
        ValueForm::Modv => Layout::Plain(3),
        ValueForm::Oriv => Layout::Plain(4),
        ValueForm::Orvv => Layout::Plain(3),
    }
}

fn pen_layout(form: PenForm) -> Layout
    ensures { result ≡ layout_of (Meaning.pen form) }
{
    match form {
        PenForm::Clipmode => Layout::Plain(2),
        PenForm::Clipmodev => Layout::Plain(2),
        PenForm::Clipwin => Layout::Plain(5),
        PenForm::Clipwinv => Layout::Plain(2),
        PenForm::Colorf => Layout::Plain(3),
        PenForm::Colorfv => Layout::Plain(2),
        PenForm::Linepatn => Layout::Plain(3),
        PenForm::Linepatnv => Layout::Plain(2),
        PenForm::Moveto => Layout::Plain(3),
        PenForm::Movetov => Layout::Plain(2),
        PenForm::Movetor => Layout::Plain(3),
        PenForm::Movetorv => Layout::Plain(2),
        PenForm::Xyorg => Layout::Plain(3),
        PenForm::Xyorgv => Layout::Plain(2),
    }
}

fn paint_layout(form: PaintForm) -> Layout
    ensures { result ≡ layout_of (Meaning.paint form) }
{
    match form {
        PaintForm::Cir => Layout::Plain(5),
        PaintForm::Cirv => Layout::Plain(2),
        PaintForm::Cirs => Layout::Plain(5),
        PaintForm::Cirsv => Layout::Plain(2),
        PaintForm::Line => Layout::Plain(6),
        PaintForm::Linev => Layout::Plain(2),
        PaintForm::Lineto => Layout::Plain(4),
        PaintForm::Linetov => Layout::Plain(2),
        PaintForm::Linetor => Layout::Plain(4),
        PaintForm::Linetorv => Layout::Plain(2),
        PaintForm::Pixel => Layout::Plain(3),
        PaintForm::Pixelv => Layout::Plain(2),
        PaintForm::Pixelc => Layout::Plain(5),
        PaintForm::Pixelcv => Layout::Plain(2),
        PaintForm::Clrwin => Layout::Plain(4),
        PaintForm::Clrwinv => Layout::Plain(2),
    }
}
