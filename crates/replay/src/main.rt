// Replays recorded packets to a responder: reads records of a 2-byte length and a packet from standard input, and
// writes a line for each, the number of the answer and the pair's expected PSN and MSN after it.
#![tactic(auto)]

mod print;
mod setting;

use records::Record;
use setting::Setting;
use std::io::{self, BufReader, BufWriter, Read, Write};

// Takes every whole record, and counts them. A proved loop has to end, and nothing says that the input does: the
// count's last number ends it.
fn replay<R: Read, W: Write>(
    input: &mut R,
    output: &mut W,
    setting: &mut Setting,
    buf: &mut [u8],
) -> io::Result<u64> {
    for whole in 0..u64::MAX {
        match records::next(input, buf)? {
            Record::Packet(packet) => {
                let status = setting.receive(packet);
                print::answer(
                    output,
                    u8::from(status),
                    setting.pair.expected.0,
                    setting.pair.msn.0,
                )?;
            }
            Record::Cut => {
                writeln!(output, "cut")?;
                return Ok(whole);
            }
            Record::End => return Ok(whole),
        }
    }
    Ok(u64::MAX)
}

fn main(rt: HostRuntime) -> io::Result<()> {
    let mut input = BufReader::new(rt.alloc(), rt.reader())?;
    let mut output = BufWriter::new(rt.alloc(), io::writer(&rt))?;
    let mut setting = Setting::new();
    let mut buf = [0; records::ROOM];
    let whole = replay(&mut input, &mut output, &mut setting, &mut buf)?;
    print::end(&mut output, whole)
}
