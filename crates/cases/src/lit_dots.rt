// Counts lit dots: 'lit LENGTH PATTERN'.
use crate::print;
use desk::fault::Fault;
use lit::LitDots;
use text::items::item;
use text::number::unsigned;

pub fn lit(out: &impl Print, line: &[u8]) -> Result<(), Fault> {
    let length = unsigned(item(line, 1))?;
    let pattern = unsigned(item(line, 2))?;
    let dots = counted(length, pattern);
    print::line(
        out,
        format_args!("lit {} count {}", dots.number, dots.count),
    );
    Ok(())
}

// What the box counts, with none of its promises: no proof here leans on them.
fn counted(length: u32, pattern: u32) -> LitDots {
    lit::lit(length, pattern)
}
