// A table of names.
ghost use Rattle.std.specs.Prelude.{◌≡◌};
ghost use Rattle.desk.specs.Tables.{beside as beside_of};

// What stands beside the name.
#[tactic(auto, unfolding(crate::specs::Tables::beside))]
pub fn beside<T: Copy>(table: &[(&[u8], T)], name: &[u8]) -> Option<T>
    ensures { result ≡ beside_of table.now name.now }
{
    table
        .iter()
        .find(|(known, _)| name == *known)
        .map(|(_, what)| *what)
}
