// Checks the list: 'check'.
use crate::print::line;
use checker::Checked;

pub fn check(out: &impl Print, list: &[u16]) {
    let checked = checked(list);
    let place = checked.place.0;
    line(
        out,
        format_args!(
            "checked {} place {place} steps {}",
            checked.number, checked.steps
        ),
    );
}

// What the checker says, with none of its promises: no proof here leans on them.
fn checked(list: &[u16]) -> Checked {
    checker::check(list)
}
