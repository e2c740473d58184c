// Mends a list: the mended one goes to standard output, a line for each word that was changed to standard error.
use errand::file::load_list;
use messages::mended::tell_mending;
use messages::words::refuse;
use output::list::write_list;
use outside::arguments::arg;
use outside::fail::fail;

// Three numbers for each of 65,536 words: room for every change.
const REPORT: usize = 196608;

// The list whose name is argument `at`. None where the mended one was not written, and a line has told why.
pub fn mend_list(rt: HostRuntime, at: usize, words: &mut [u16]) -> Option<()> {
    let mut room = io::buffer();
    let n = arg(&rt, at, &mut room);
    let name = &room[..n];
    let (list, _) = load_list(rt, name, name, words)?;
    let mut report = [0u32; REPORT];
    mend_words(rt, name, list, &mut report)
}

fn mend_words(
    rt: HostRuntime,
    name: &[u8],
    list: &mut [u16],
    report: &mut [u32; REPORT],
) -> Option<()> {
    let to = rt.stderr();
    let changes = mended(list, report)
        .map_err(|number| refuse(&to, name, number))
        .ok()?;
    write_list(&rt.stdout(), list)
        .map_err(|error| fail(&to, b"standard output", error))
        .ok()?;
    tell_mending(&to, name, report, changes);
    Some(())
}

// How many words it changed, or the number that it refuses the list with: what the mender says, with none of its promises, as no
// proof here leans on them.
fn mended(list: &mut [u16], report: &mut [u32]) -> Result<u32, u8> {
    let mended = mender::mend(list, report);
    if mended.number == 0 {
        Ok(mended.changes)
    } else {
        Err(mended.number)
    }
}
