// The opcodes that set what is drawn with.
ghost use Rattle.rules.specs.Meaning as Meaning;
ghost use Rattle.lent.specs.Leaves.{Goes};
ghost use Rattle.step.specs.Steps.{shows};

use draw::pen;
use fetch::read::Opcode;
use player::Upshot;
use rules::environment::Registers;
use rules::opcode::PenForm;

pub fn step(form: PenForm, here: Opcode<'_>, registers: &mut Registers, vars: &[u32; 64]) -> Upshot
    ensures { Goes result (shows (Meaning.pen form) here.entry.words.now here.entry.pc.0 vars.now) registers.old registers.new }
{
    match form {
        PenForm::Clipmode => pen::clip_mode(here.plain(1), registers),
        PenForm::Clipmodev => pen::clip_mode(here.variables(vars, 1), registers),
        PenForm::Clipwin => pen::clip_window(here.plain(4), registers),
        PenForm::Clipwinv => pen::clip_window(here.variables(vars, 4), registers),
        PenForm::Colorf => pen::colour(here.long(), registers),
        PenForm::Colorfv => pen::colour(here.variables(vars, 1), registers),
        PenForm::Linepatn => pen::pattern(here.long(), registers),
        PenForm::Linepatnv => pen::pattern(here.variables(vars, 1), registers),
        PenForm::Moveto => pen::move_to(here.plain(2), registers),
        PenForm::Movetov => pen::move_to(here.variables(vars, 2), registers),
        PenForm::Movetor => pen::move_by(here.plain(2), registers),
        PenForm::Movetorv => pen::move_by(here.variables(vars, 2), registers),
        PenForm::Xyorg => pen::origin(here.plain(2), registers),
        PenForm::Xyorgv => pen::origin(here.variables(vars, 2), registers),
    }
}
