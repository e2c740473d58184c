// One opcode: found by its word, or refused with 20 or 21. A form's group is lent only what its opcodes may touch.
#![tactic(auto)]

mod flow; // those that go elsewhere, repeat, end or do nothing
mod values; // those of the variables
mod pen; // those that set what is drawn with
mod painting; // those that paint
pub mod step; // the opcode at the counter
