// The checker's face for C: include/ovenlute.h has this function. It is the library's own, and promises what that promises.
#![tactic(auto)]

ghost use Rattle.checker.specs.Checked.{Promise};

use checker::Checked;

// Any list.
#[unsafe(no_mangle)]
pub extern "C" fn ovenlute_check(list: &[u16]) -> Checked
    ensures { Promise list.now result }
{
    checker::ovenlute_check(list)
}
