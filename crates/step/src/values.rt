// The opcodes of the variables and the values compared.
ghost use Rattle.rules.specs.Meaning as Meaning;
ghost use Rattle.lent.specs.Leaves.{Sets};
ghost use Rattle.step.specs.Steps.{shows};

use act::values;
use fetch::read::Opcode;
use player::Upshot;
use rules::environment::Registers;
use rules::opcode::ValueForm;

pub fn step(
    form: ValueForm,
    here: Opcode<'_>,
    registers: &mut Registers,
    vars: &mut [u32; 64],
) -> Upshot
    ensures { Sets result (shows (Meaning.value form) here.entry.words.now here.entry.pc.0 vars.old)
        registers.old registers.new vars.old vars.new }
{
    match form {
        ValueForm::Adiv => values::add(here.long_var(), registers, vars),
        ValueForm::Advv => values::add(here.var_var(&*vars), registers, vars),
        ValueForm::Andiv => values::and(here.long_var(), registers, vars),
        ValueForm::Andvv => values::and(here.var_var(&*vars), registers, vars),
        ValueForm::Cpiv => values::compare(here.long_var(), registers, &*vars),
        ValueForm::Cpvv => values::compare(here.var_var(&*vars), registers, &*vars),
        ValueForm::Dcrv => values::decrement(here.var(), registers, vars),
        ValueForm::Divv => values::divide(here.var_var(&*vars), registers, vars),
        ValueForm::Incv => values::increment(here.var(), registers, vars),
        ValueForm::Ldiv => values::load(here.word_var(), registers, vars),
        ValueForm::Ldivl => values::load(here.long_var(), registers, vars),
        ValueForm::Ldvv => values::load(here.var_var(&*vars), registers, vars),
        ValueForm::Mltv => values::multiply(here.var_var(&*vars), registers, vars),
        ValueForm::Modv => values::remainder(here.var_var(&*vars), registers, vars),
        ValueForm::Oriv => values::or(here.long_var(), registers, vars),
        ValueForm::Orvv => values::or(here.var_var(&*vars), registers, vars),
    }
}
