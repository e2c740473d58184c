// Document 02, T-14, lists off bad EPROMs: a list is made one that can be walked from word 0 through its end, and each change is
// reported.
#![tactic(auto)]

mod walk; // what becomes of each word
mod report; // a change, as three numbers

ghost use Rattle.std.specs.Prelude.{◌≡◌, ◌+◌, ◌≤◌, length};
ghost use Rattle.std.proofs.lemmas.List.Edits.{sets};
ghost use Rattle.mender.specs.Walk.{mended};
ghost use Rattle.mender.specs.Report.{change_of, changes, numbers};
ghost use Rattle.mender.specs.Replaced.{Replaced};
ghost use Rattle.mender.specs.Mended.{answered, Promise};

use crate::report::{Change, Written};
use crate::walk::pass;
use numbers::place::WordIndex;

// 0 and how many words were changed; 32 and how many would be, where the report has no room for them; 13 and 0.
#[repr(C)]
#[derive(Clone, Copy)]
pub struct Mended {
    pub number: u8,
    pub changes: u32,
}

// Why a list is left as it was: it is too long; or the report has no room for so many changes.
#[derive(Clone, Copy)]
enum Unmended {
    TooLong,
    NoRoom(u32),
}

impl From<Result<u32, Unmended>> for Mended {
    ghost from_gives = { λ changes m. m ≡ answered changes };

    fn from(changes: Result<u32, Unmended>) -> Mended {
        match changes {
            Ok(changes) => Mended { number: 0, changes },
            Err(Unmended::TooLong) => Mended {
                number: 13,
                changes: 0,
            },
            Err(Unmended::NoRoom(changes)) => Mended {
                number: 32,
                changes,
            },
        }
    }
}

// How many words will differ. A loop of its own: this one only reads the list that `write` changes as it goes.
fn count(list: &[u16]) -> usize
    ensures { result ≡ length (changes list.now (mended list.now)) }
{
    let mut left = Some(0);
    let mut n: usize = 0;
    for (i, word) in list.iter().enumerate() {
        let passed = pass(left, *word, list.len() - i);
        left = passed.left;
        if passed.word != *word {
            n += 1;
        }
    }
    n
}

// A word becomes another and, where it differs from that, is reported.
fn replace(word: &mut u16, written: &mut Written<'_>, index: WordIndex, is: u16)
    requires { written.old.to + length (numbers (change_of index.0 word.old is)) ≤ length written.old.report.now }
    ensures same_reference { written.new.report.ghost_name ≡ written.old.report.ghost_name }
    ensures replaced { Replaced word.old written.old.report.now index.0 is written.old.to written.new.to word.new written.new.report.now }
{
    let was = *word;
    if was == is {
        return;
    }
    written.put(Change { index, was, is });
    *word = is;
}

// Every word, and the report from its start.
fn write(list: &mut [u16], report: &mut [u32])
    requires list_len_bound { length list.old ≤ 65536 }
    requires list_in_bounds { length (numbers (changes list.old (mended list.old))) ≤ length report.old }
    ensures { (list.new ≡ mended list.old)
        × (report.new ≡ sets report.old 0 (numbers (changes list.old (mended list.old)))) }
{
    let words = list.len();
    let mut left = Some(0);
    let mut written = Written { report, to: 0 };
    for (i, word) in list.iter_mut().enumerate() {
        let passed = pass(left, *word, words - i);
        left = passed.left;
        replace(word, &mut written, WordIndex(i as u32), passed.word);
    }
}

// How many words were changed, or why none was.
fn try_mend(list: &mut [u16], report: &mut [u32]) -> Result<u32, Unmended>
    ensures { Promise list.old report.old (answered result) list.new report.new }
{
    if 65536 < list.len() {
        return Err(Unmended::TooLong);
    }
    let n = count(&*list);
    let changes = n as u32;
    if report.len() < 3 * n {
        return Err(Unmended::NoRoom(changes));
    }
    write(list, report);
    Ok(changes)
}

// Any list, any report: three numbers a change, its index, the old word and the new one.
pub fn mend(list: &mut [u16], report: &mut [u32]) -> Mended
    ensures { Promise list.old report.old result list.new report.new }
{
    Mended::from(try_mend(list, report))
}

// The mender, for C.
pub fn ovenlute_mend(list: &mut [u16], report: &mut [u32]) -> Mended
    ensures { Promise list.old report.old result list.new report.new }
{
    mend(list, report)
}
