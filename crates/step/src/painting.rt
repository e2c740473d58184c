// The opcodes that paint: what is to be painted is answered, as a brush.
ghost use Rattle.std.specs.Prelude.{◌≡◌, true};
ghost use Rattle.rules.specs.Meaning as Meaning;
ghost use Rattle.rules.specs.Opcodes.{dot_fits};
ghost use Rattle.lent.specs.Leaves.{Goes};
ghost use Rattle.step.specs.Steps.{shows};

use draw::painting;
use fetch::read::Opcode;
use player::Upshot;
use rules::environment::Registers;
use rules::opcode::PaintForm;

pub fn step(
    form: PaintForm,
    here: Opcode<'_>,
    registers: &mut Registers,
    vars: &[u32; 64],
) -> Upshot
    requires { (dot_fits registers.old.position ≡ true) }
    ensures { Goes result (shows (Meaning.paint form) here.entry.words.now here.entry.pc.0 vars.now) registers.old registers.new }
{
    match form {
        PaintForm::Cir => painting::circle(here.plain(4), false, registers),
        PaintForm::Cirv => painting::circle(here.variables(vars, 4), false, registers),
        PaintForm::Cirs => painting::circle(here.plain(4), true, registers),
        PaintForm::Cirsv => painting::circle(here.variables(vars, 4), true, registers),
        PaintForm::Line => painting::line(here.plain(5), registers),
        PaintForm::Linev => painting::line(here.variables(vars, 5), registers),
        PaintForm::Lineto => painting::line_to(here.plain(3), registers),
        PaintForm::Linetov => { painting::line_to(here.variables(vars, 3), registers) }
        PaintForm::Linetor => painting::line_by(here.plain(3), registers),
        PaintForm::Linetorv => { painting::line_by(here.variables(vars, 3), registers) }
        PaintForm::Pixel => painting::pixel(here.plain(2), registers),
        PaintForm::Pixelv => painting::pixel(here.variables(vars, 2), registers),
        PaintForm::Pixelc => painting::pixel_colour(here.word2_long(), registers),
        PaintForm::Pixelcv => painting::pixel_colour(here.variables(vars, 3), registers),
        PaintForm::Clrwin => painting::clear(here.long_word(), registers),
        PaintForm::Clrwinv => painting::clear(here.variables(vars, 2), registers),
    }
}
