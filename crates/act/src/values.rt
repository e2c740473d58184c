// Variables: loading, arithmetic, logic, and the two values compared. a: the value on the left; dest: Vd, on the right.
ghost use Rattle.std.specs.Prelude.{◌≡◌, ℕ, ◌<◌};
ghost use Rattle.rules.specs.Operands.{at};
ghost use Rattle.rules.specs.Op as Op;
ghost use Rattle.rules.specs.Opcodes.{gives, rule};
ghost use Rattle.rules.specs.Opcodes as Opcodes;
ghost use Rattle.act.specs.Calculations.{Makes};
ghost use Rattle.fetch.specs.Stages.{Destined};
ghost use Rattle.lent.specs.Shown.{answers, does};
ghost use Rattle.lent.specs.Leaves.{Sets};

use fetch::source::{Fetched, Taken};
use numbers::arith;
use player::Upshot;
use player::refusal::Refusal;
use rules::environment::Registers;
use rules::opcode::Operands;

// Vd's value.
fn old(o: Operands, variables: &[u32; 64]) -> u32
    requires { o.dest.0 < 64 }
    ensures { result ≡ at variables.now o.dest.0 }
{
    variables[o.dest.0 as usize]
}

// A value into Vd.
fn put(f: Fetched, v: u32, registers: &mut Registers, variables: &mut [u32; 64]) -> Upshot
    requires { f.operands.dest.0 < 64 }
    ensures { Sets result (does (gives v f.operands) f.next) registers.old registers.new variables.old variables.new }
{
    variables[f.operands.dest.0 as usize] = v;
    registers.counter = f.next;
    Ok(None)
}

#[inline(always)]
pub fn load(taken: Taken, registers: &mut Registers, variables: &mut [u32; 64]) -> Upshot
    requires { Destined taken }
    ensures { (n : ℕ) → Sets result (answers taken (λ o. rule Op.Load o n))
        registers.old registers.new variables.old variables.new }
{
    let f = taken?;
    put(f, f.operands.a, registers, variables)
}

// What a calculation makes of Vd's value and the operand, into Vd.
fn calculate<F: FnOnce(u32, u32) -> u32>(
    calculation: F,
    f: Fetched,
    registers: &mut Registers,
    variables: &mut [u32; 64],
) -> Upshot
    requires dest { f.operands.dest.0 < 64 }
    requires callable { F.IsAlwaysCallable calculation }
    ensures { (g : ℕ → ℕ → ℕ) → Makes (F.post calculation) g f.operands.a
        → Sets result (does (λ e. gives (g (Opcodes.old f.operands e) f.operands.a) f.operands e) f.next)
        registers.old registers.new variables.old variables.new }
{
    let o = f.operands;
    put(
        f,
        calculation(old(o, &*variables), o.a),
        registers,
        variables,
    )
}

#[inline(always)]
pub fn add(taken: Taken, registers: &mut Registers, variables: &mut [u32; 64]) -> Upshot
    requires { Destined taken }
    ensures { (n : ℕ) → Sets result (answers taken (λ o. rule Op.Add o n))
        registers.old registers.new variables.old variables.new }
{
    let f = taken?;
    calculate(arith::add, f, registers, variables)
}

#[inline(always)]
pub fn and(taken: Taken, registers: &mut Registers, variables: &mut [u32; 64]) -> Upshot
    requires { Destined taken }
    ensures { (n : ℕ) → Sets result (answers taken (λ o. rule Op.And o n))
        registers.old registers.new variables.old variables.new }
{
    let f = taken?;
    calculate(arith::and, f, registers, variables)
}

#[inline(always)]
pub fn or(taken: Taken, registers: &mut Registers, variables: &mut [u32; 64]) -> Upshot
    requires { Destined taken }
    ensures { (n : ℕ) → Sets result (answers taken (λ o. rule Op.Or o n))
        registers.old registers.new variables.old variables.new }
{
    let f = taken?;
    calculate(arith::or, f, registers, variables)
}

#[inline(always)]
pub fn multiply(taken: Taken, registers: &mut Registers, variables: &mut [u32; 64]) -> Upshot
    requires { Destined taken }
    ensures { (n : ℕ) → Sets result (answers taken (λ o. rule Op.Multiply o n))
        registers.old registers.new variables.old variables.new }
{
    let f = taken?;
    calculate(arith::mul, f, registers, variables)
}

#[inline(always)]
pub fn increment(taken: Taken, registers: &mut Registers, variables: &mut [u32; 64]) -> Upshot
    requires { Destined taken }
    ensures { (n : ℕ) → Sets result (answers taken (λ o. rule Op.Increment o n))
        registers.old registers.new variables.old variables.new }
{
    let f = taken?;
    calculate(|old, _| arith::inc(old), f, registers, variables)
}

#[inline(always)]
pub fn decrement(taken: Taken, registers: &mut Registers, variables: &mut [u32; 64]) -> Upshot
    requires { Destined taken }
    ensures { (n : ℕ) → Sets result (answers taken (λ o. rule Op.Decrement o n))
        registers.old registers.new variables.old variables.new }
{
    let f = taken?;
    calculate(|old, _| arith::dec(old), f, registers, variables)
}

#[inline(always)]
pub fn divide(taken: Taken, registers: &mut Registers, variables: &mut [u32; 64]) -> Upshot
    requires { Destined taken }
    ensures { (n : ℕ) → Sets result (answers taken (λ o. rule Op.Divide o n))
        registers.old registers.new variables.old variables.new }
{
    let f = taken?;
    let o = f.operands;
    let quotient = arith::quotient(old(o, &*variables), o.a);
    put(
        f,
        quotient.ok_or(registers.refused(Refusal::ByZero))?,
        registers,
        variables,
    )
}

#[inline(always)]
pub fn remainder(taken: Taken, registers: &mut Registers, variables: &mut [u32; 64]) -> Upshot
    requires { Destined taken }
    ensures { (n : ℕ) → Sets result (answers taken (λ o. rule Op.Remainder o n))
        registers.old registers.new variables.old variables.new }
{
    let f = taken?;
    let o = f.operands;
    let remainder = arith::remainder(old(o, &*variables), o.a);
    put(
        f,
        remainder.ok_or(registers.refused(Refusal::ByZero))?,
        registers,
        variables,
    )
}

// Vd's value is kept first, the other second.
#[inline(always)]
pub fn compare(taken: Taken, registers: &mut Registers, variables: &[u32; 64]) -> Upshot
    requires { Destined taken }
    ensures { (n : ℕ) → Sets result (answers taken (λ o. rule Op.Compare o n))
        registers.old registers.new variables.now variables.now }
{
    let f = taken?;
    let o = f.operands;
    registers.first = old(o, variables);
    registers.second = o.a;
    registers.counter = f.next;
    Ok(None)
}
