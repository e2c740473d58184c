// Jumps, calls, returns and the end of the list.
ghost use Rattle.std.specs.Prelude.{◌≡◌, ℕ};
ghost use Rattle.rules.specs.Op as Op;
ghost use Rattle.rules.specs.Opcodes.{calls, rule};
ghost use Rattle.lent.specs.Shown.{answers, does};
ghost use Rattle.lent.specs.Leaves.{Goes, Stacks, Stacked};
ghost use Rattle.act.specs.Conditions as Conditions;

use fetch::source::Taken;
use lent::Stack;
use numbers::arith::{equal, less};
use numbers::place::{BitAddress, WordIndex, word_at, word_from};
use player::Upshot;
use player::refusal::Refusal;
use rules::environment::Registers;

// Whether condition k, by 004's numbers, is met by the values last compared; None where there is no such condition.
#[inline(always)]
fn is_met(k: u32, first: u32, second: u32) -> Option<bool>
    ensures { result ≡ Conditions.is_met k first second }
{
    match k {
        0x0 => Some(true),
        0x4 => Some(less(first, second)),
        0x5 => Some(!less(first, second)),
        0x6 => Some(!less(second, first)),
        0x7 => Some(less(second, first)),
        0xA => Some(equal(first, second)),
        0xB => Some(!equal(first, second)),
        _ => None,
    }
}

// a: the condition; b: the target's bit address. A jump that is not taken does not look at its target. This one and the next each ask
// for themselves: one function for both, handed a closure for the target, is slower (docs/DECISIONS.md, T10.8).
#[inline(always)]
pub fn jump(taken: Taken, count: u32, registers: &mut Registers) -> Upshot
    ensures { Goes result (answers taken (λ o. rule Op.Jump o count)) registers.old registers.new }
{
    let f = taken?;
    let o = f.operands;
    let met = is_met(o.a, registers.first, registers.second);
    if met.ok_or(registers.refused(Refusal::NotAllowed))? {
        let target = word_at(BitAddress(o.b), count);
        registers.counter = target.ok_or(registers.refused(Refusal::NoTarget))?;
    } else {
        registers.counter = f.next;
    }
    Ok(None)
}

// a: the condition; b: the offset in words.
#[inline(always)]
pub fn jump_by(taken: Taken, count: u32, registers: &mut Registers) -> Upshot
    ensures { Goes result (answers taken (λ o. rule Op.JumpBy o count)) registers.old registers.new }
{
    let f = taken?;
    let o = f.operands;
    let met = is_met(o.a, registers.first, registers.second);
    if met.ok_or(registers.refused(Refusal::NotAllowed))? {
        let target = word_from(f.next, o.b, count);
        registers.counter = target.ok_or(registers.refused(Refusal::NoTarget))?;
    } else {
        registers.counter = f.next;
    }
    Ok(None)
}

// A call: the return index is the next opcode's.
#[inline(always)]
fn call_to(
    target: Option<WordIndex>,
    next: WordIndex,
    registers: &mut Registers,
    stack: &mut Stack,
) -> Upshot
    requires { Stacked registers.old stack.old }
    ensures { Stacks result (does (calls target) next) registers.old registers.new stack.old stack.new }
{
    let target = target.ok_or(registers.refused(Refusal::NoTarget))?;
    let depth = registers.depth;
    if 16 <= depth {
        return Err(registers.refused(Refusal::TooDeep));
    }
    stack.returns[depth as usize] = next;
    registers.depth = depth + 1;
    registers.counter = target;
    Ok(None)
}

// a: the target's bit address.
#[inline(always)]
pub fn call(taken: Taken, count: u32, registers: &mut Registers, stack: &mut Stack) -> Upshot
    requires { Stacked registers.old stack.old }
    ensures { Stacks result (answers taken (λ o. rule Op.Call o count))
        registers.old registers.new stack.old stack.new }
{
    let f = taken?;
    let target = word_at(BitAddress(f.operands.a), count);
    call_to(target, f.next, registers, stack)
}

// a: the offset in words.
#[inline(always)]
pub fn call_by(taken: Taken, count: u32, registers: &mut Registers, stack: &mut Stack) -> Upshot
    requires { Stacked registers.old stack.old }
    ensures { Stacks result (answers taken (λ o. rule Op.CallBy o count))
        registers.old registers.new stack.old stack.new }
{
    let f = taken?;
    let target = word_from(f.next, f.operands.a, count);
    call_to(target, f.next, registers, stack)
}

// To the last return stacked, untested.
#[inline(always)]
pub fn come_back(taken: Taken, registers: &mut Registers, stack: &Stack) -> Upshot
    requires { Stacked registers.old stack.now }
    ensures { (n : ℕ) → Stacks result (answers taken (λ o. rule Op.Return o n))
        registers.old registers.new stack.now stack.now }
{
    let f = taken?;
    let depth = registers.depth;
    if depth == 0 {
        return Err(registers.refused(Refusal::NoneOpen));
    }
    registers.depth = depth - 1;
    registers.counter = stack.returns[(depth - 1) as usize];
    Ok(None)
}

#[inline(always)]
pub fn noop(taken: Taken, registers: &mut Registers) -> Upshot
    ensures { (n : ℕ) → Goes result (answers taken (λ o. rule Op.Noop o n)) registers.old registers.new }
{
    registers.counter = taken?.next;
    Ok(None)
}

#[inline(always)]
pub fn end(taken: Taken, registers: &mut Registers) -> Upshot
    ensures { (n : ℕ) → Goes result (answers taken (λ o. rule Op.End o n)) registers.old registers.new }
{
    let f = taken?;
    registers.state = 1;
    registers.place = WordIndex(0);
    registers.counter = f.next;
    Ok(None)
}
