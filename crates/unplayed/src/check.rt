// Tells whether a list surely finishes: to standard output in how many steps it does, or to standard error why it may not.
use checker::Checked;
use errand::file::load_list;
use errand::say::tell;
use messages::place::tell_fault;
use outside::arguments::arg;

// The list whose name is argument `at`. None where it may not finish, and a line has told why.
pub fn check_list(rt: HostRuntime, at: usize, words: &mut [u16]) -> Option<()> {
    let mut room = io::buffer();
    let n = arg(&rt, at, &mut room);
    let name = &room[..n];
    let (list, _) = load_list(rt, name, name, words)?;
    judged(rt, name, list)
}

fn judged(rt: HostRuntime, name: &[u8], list: &[u16]) -> Option<()> {
    match checked(list) {
        Ok(steps) => {
            let what = format_args!("surely finishes: steps {steps}");
            tell(&rt.stdout(), name, what);
            Some(())
        }
        Err(fault) => {
            tell_fault(&rt.stderr(), name, list, fault.number, fault.place);
            None
        }
    }
}

// The steps, or the checker's refusal: what it says, with none of its promises, as no proof here leans on them.
fn checked(list: &[u16]) -> Result<u32, Checked> {
    let checked = checker::check(list);
    if checked.number == 0 {
        Ok(checked.steps)
    } else {
        Err(checked)
    }
}
