// Lines on standard output. Each is there before the next record is read.
use std::io::{self, Write};

pub(crate) fn answer<W: Write>(out: &mut W, number: u8, expected: u32, msn: u32) -> io::Result<()> {
    writeln!(out, "{number} {expected} {msn}")?;
    out.flush()
}

pub(crate) fn end<W: Write>(out: &mut W, whole: u64) -> io::Result<()> {
    writeln!(out, "end {whole}")?;
    out.flush()
}
