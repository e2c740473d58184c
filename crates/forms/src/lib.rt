// Which opcode a word is: the one place of the program where opcode numbers stand.
#![tactic(auto)]

pub mod layout; // how it lies in a list

ghost use Rattle.std.specs.Prelude.{◌≡◌};
ghost use Rattle.rules.specs.Table.{form_of};

use rules::opcode::{FlowForm, Form, PaintForm, PenForm, ValueForm};

// One decision over the opcode word; everything else is unknown.
// No `From`: the form is a type of `rules`, and an impl of it would have to stand there.
#[tactic(auto, using(rules::proofs::TableLaws::at), unfolding(rules::specs::Table::form_of))]
pub fn form_of(word: u16) -> Form
    ensures { result ≡ form_of word }
{
    match word {
        0x0000 => Form::Flow(FlowForm::Noop),
        0x0001 => Form::Flow(FlowForm::Eodl),
        0x0002 => Form::Value(ValueForm::Adiv),
        0x0003 => Form::Value(ValueForm::Advv),
        0x0006 => Form::Value(ValueForm::Andiv),
        0x0007 => Form::Value(ValueForm::Andvv),
        0x000E => Form::Flow(FlowForm::Cal),
        0x000F => Form::Flow(FlowForm::Calv),
        0x0012 => Form::Paint(PaintForm::Cir),
        0x0013 => Form::Paint(PaintForm::Cirv),
        0x0014 => Form::Paint(PaintForm::Cirs),
        0x0015 => Form::Paint(PaintForm::Cirsv),
        0x0016 => Form::Pen(PenForm::Clipmode),
        0x0017 => Form::Pen(PenForm::Clipmodev),
        0x0018 => Form::Pen(PenForm::Clipwin),
        0x0019 => Form::Pen(PenForm::Clipwinv),
        0x001F => Form::Pen(PenForm::Colorf),
        0x0020 => Form::Pen(PenForm::Colorfv),
        0x0033 => Form::Value(ValueForm::Cpiv),
        0x0034 => Form::Value(ValueForm::Cpvv),
        0x0042 => Form::Value(ValueForm::Dcrv),
        0x0045 => Form::Value(ValueForm::Divv),
        0x004F => Form::Flow(FlowForm::Erpt),
        0x005D => Form::Value(ValueForm::Incv),
        0x0065 => Form::Value(ValueForm::Ldiv),
        0x0066 => Form::Value(ValueForm::Ldivl),
        0x0071 => Form::Value(ValueForm::Ldvv),
        0x0074 => Form::Paint(PaintForm::Line),
        0x0075 => Form::Paint(PaintForm::Linev),
        0x0078 => Form::Pen(PenForm::Linepatn),
        0x0079 => Form::Pen(PenForm::Linepatnv),
        0x007C => Form::Paint(PaintForm::Lineto),
        0x007D => Form::Paint(PaintForm::Linetov),
        0x007E => Form::Paint(PaintForm::Linetor),
        0x007F => Form::Paint(PaintForm::Linetorv),
        0x0080 => Form::Value(ValueForm::Mltv),
        0x0081 => Form::Value(ValueForm::Modv),
        0x0082 => Form::Pen(PenForm::Moveto),
        0x0083 => Form::Pen(PenForm::Movetov),
        0x0084 => Form::Pen(PenForm::Movetor),
        0x0085 => Form::Pen(PenForm::Movetorv),
        0x0090 => Form::Value(ValueForm::Oriv),
        0x0091 => Form::Value(ValueForm::Orvv),
        0x009E => Form::Paint(PaintForm::Pixel),
        0x009F => Form::Paint(PaintForm::Pixelv),
        0x00B7 => Form::Flow(FlowForm::Rpt),
        0x00B9 => Form::Flow(FlowForm::Rtrn),
        0x0100 => Form::Pen(PenForm::Xyorg),
        0x0101 => Form::Pen(PenForm::Xyorgv),
        0x010A => Form::Flow(FlowForm::Jumpa),
        0x010C => Form::Flow(FlowForm::Jumpr),
        0x010E => Form::Flow(FlowForm::Calr),
        0x010F => Form::Flow(FlowForm::Calrv),
        0x0150 => Form::Paint(PaintForm::Pixelc),
        0x0151 => Form::Paint(PaintForm::Pixelcv),
        0x0188 => Form::Paint(PaintForm::Clrwin),
        0x0189 => Form::Paint(PaintForm::Clrwinv),
        _ => Form::Unknown,
    }
}
