// The opcodes that go elsewhere, repeat, end or do nothing.
ghost use Rattle.rules.specs.Meaning as Meaning;
ghost use Rattle.lent.specs.Leaves.{Stacked, Stacks};
ghost use Rattle.step.specs.Steps.{shows};

use act::{flow, repeats};
use fetch::read::Opcode;
use lent::Stack;
use player::Upshot;
use rules::environment::Registers;
use rules::opcode::FlowForm;

pub fn step(
    form: FlowForm,
    here: Opcode<'_>,
    registers: &mut Registers,
    vars: &[u32; 64],
    stack: &mut Stack,
) -> Upshot
    requires { Stacked registers.old stack.old }
    ensures { Stacks result (shows (Meaning.flow form) here.entry.words.now here.entry.pc.0 vars.now)
        registers.old registers.new stack.old stack.new }
{
    let count = here.words.len() as u32;
    match form {
        FlowForm::Noop => flow::noop(here.plain(0), registers),
        FlowForm::Eodl => flow::end(here.plain(0), registers),
        FlowForm::Cal => flow::call(here.long(), count, registers, stack),
        FlowForm::Calv => flow::call(here.variables(vars, 1), count, registers, stack),
        FlowForm::Erpt => repeats::end_repeat(here.plain(0), registers, stack),
        FlowForm::Rpt => repeats::repeat(here.plain(1), registers, stack),
        FlowForm::Rtrn => flow::come_back(here.plain(0), registers, &*stack),
        FlowForm::Jumpa => flow::jump(here.word_long(), count, registers),
        FlowForm::Jumpr => flow::jump_by(here.plain(2), count, registers),
        FlowForm::Calr => flow::call_by(here.plain(1), count, registers, stack),
        FlowForm::Calrv => flow::call_by(here.variables(vars, 1), count, registers, stack),
    }
}
