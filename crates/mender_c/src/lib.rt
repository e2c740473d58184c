// The mender's face for C: include/ovenlute.h has this function. It is the library's own, and promises what that promises.
#![tactic(auto)]

ghost use Rattle.mender.specs.Mended.{Promise};

use mender::Mended;

// Any list, any report.
#[unsafe(no_mangle)]
pub extern "C" fn ovenlute_mend(list: &mut [u16], report: &mut [u32]) -> Mended
    ensures { Promise list.old report.old result list.new report.new }
{
    mender::ovenlute_mend(list, report)
}
