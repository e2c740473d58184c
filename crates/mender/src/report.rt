// The report of a mending: what was changed, three numbers a change.
ghost use Rattle.std.specs.Prelude.{◌≡◌, ◌+◌, ◌≤◌, length};
ghost use Rattle.std.proofs.lemmas.List.Edits.{sets};
ghost use Rattle.mender.specs.Report.{three};

use numbers::place::WordIndex;

// The word at an index was that, and is this.
#[derive(Clone, Copy)]
pub struct Change {
    pub index: WordIndex,
    pub was: u16,
    pub is: u16,
}

impl From<Change> for [u32; 3] {
    ghost from_gives = { λ change numbers. numbers ≡ three change };

    fn from(change: Change) -> [u32; 3] {
        [change.index.0, u32::from(change.was), u32::from(change.is)]
    }
}

// A report, and how far it is written.
#[derive(Drop)]
pub struct Written<'a> {
    pub report: &'a mut [u32],
    pub to: usize,
}

impl<'a> Written<'a> {
    // The three numbers of a change.
    pub fn put(&mut self, change: Change)
        requires { self.old.to + 3 ≤ length self.old.report.now }
        ensures same_reference { self.new.report.ghost_name ≡ self.old.report.ghost_name }
        ensures report { self.new.report.now ≡ sets self.old.report.now self.old.to (three change) }
        ensures to { self.new.to ≡ self.old.to + 3 }
    {
        let numbers = <[u32; 3]>::from(change);
        let to = self.to;
        self.report[to..to + 3].copy_from_slice(&numbers);
        self.to = to + 3;
    }
}
