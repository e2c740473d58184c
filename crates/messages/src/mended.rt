// What a mending changed, a line a change, on standard error.
use crate::digits::{Index, Word};
use crate::words::Text;
use errand::say::{say, tell};
use forms::form_of;
use names::name_of;
use numbers::place::WordIndex;
use rules::opcode::Form;

// By the mender's report, which has so many changes.
pub fn tell_mending(to: &impl Print, name: &[u8], report: &[u32], changes: u32) {
    if changes == 0 {
        tell(to, name, "nothing to mend");
    } else {
        tell_changes(to, name, report, changes);
    }
}

// Three numbers a change: its index, the old word and the new one. `cut` is the opcode that the list's end cuts, once it is met:
// behind its first word all is its rest.
fn tell_changes(to: &impl Print, name: &[u8], report: &[u32], changes: u32) {
    let mut cut = None;
    for change in report.chunks_exact(3).take(changes as usize) {
        let was = word(change[1]);
        let is = word(change[2]);
        tell_words(to, name, WordIndex(change[0]), was, is);
        match cut {
            Some(form) => tell_rest(to, form),
            None => cut = tell_due(to, was, is),
        }
    }
}

fn word(number: u32) -> u16 {
    (number % 65536) as u16
}

// NAME: word 0300: FF5D made 0000:
fn tell_words(to: &impl Print, name: &[u8], at: WordIndex, was: u16, is: u16) {
    let (at, was, is) = (Index(at), Word(was), Word(is));
    say(to, name);
    let _ = print!(to; ": word {at}: {was} made {is}: ");
}

fn tell_rest(to: &impl Print, cut: Form) {
    let name = Text(name_of(cut));
    let _ = println!(to; "the rest of {name}");
}

// What the old word was taken for where an opcode was due: one that the list's end cuts is made 0001, and what is none 0000. Gives
// the opcode that is cut.
fn tell_due(to: &impl Print, was: u16, is: u16) -> Option<Form> {
    if is == 0 {
        let _ = println!(to; "no opcode");
        return None;
    }
    let form = form_of(was);
    let name = Text(name_of(form));
    let _ = println!(to; "{name}, cut by the list's end");
    Some(form)
}
