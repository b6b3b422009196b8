// Lists packets for people: reads records of a 2-byte length and a packet from standard input, and
// writes each packet's header fields in words, or why the packet is dropped.
#![tactic(auto)]

mod fields;
mod packet;
mod words;

use records::Record;
use std::io::{self, BufReader, BufWriter, Read, Write};

// Takes every whole record, and counts them. A proved loop has to end, and nothing says that the
// input does: the count's last number ends it.
fn take_records<R: Read, W: Write>(input: &mut R, out: &mut W, buf: &mut [u8]) -> io::Result<u64> {
    for whole in 0..u64::MAX {
        match records::next(input, buf)? {
            Record::Packet(p) => {
                packet::list(out, whole + 1, p)?;
                out.flush()?;
            }
            Record::Cut => {
                writeln!(out, "cut")?;
                return Ok(whole);
            }
            Record::End => return Ok(whole),
        }
    }
    Ok(u64::MAX)
}

fn main(rt: HostRuntime) -> io::Result<()> {
    let mut input = BufReader::new(rt.alloc(), rt.reader())?;
    let mut out = BufWriter::new(rt.alloc(), io::writer(&rt))?;
    let mut buf = [0; records::ROOM];
    let whole = take_records(&mut input, &mut out, &mut buf)?;
    writeln!(out, "end {whole}")?;
    out.flush()
}
