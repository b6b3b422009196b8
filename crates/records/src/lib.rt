// Records in a stream: a length of 2 bytes, big-endian, and a packet of that many bytes.
#![tactic(auto)]

ghost use Rattle.std.specs.Prelude.{◌≡◌, ◌^◌, ◌<◌, ◌≤◌, length, take, IfOk, OnErr};
ghost use Rattle.std.specs.Int.{w16, to_be_bytes, from_be_bytes};
ghost use Rattle.std.specs.Io.KnownBytes.{Consumes, IsAtEnd};
ghost use Rattle.records.specs.Next.{ReadsNext, TakesSome};

use std::io::{self, Read};

// Room for the longest packet that a record can have, of 65,535 bytes.
pub const ROOM: usize = 65536;

// What comes next in a stream.
#[derive(Debug, Clone, Copy, PartialEq, Eq)]
pub enum Record<'a> {
    // The packet of a whole record.
    Packet(&'a [u8]),
    // A record that breaks off, or whose packet has no room.
    Cut,
    End,
}

// Reads until buf is full or the input ends, and says how many bytes came. `read_exact` doesn't say that, and
// `read_to_end` takes memory.
fn fill<R: Read>(input: &mut R, buf: &mut [u8]) -> io::Result<usize>
    ensures count { IfOk result (λ n. n ≤ length buf.new) }
    ensures bytes { IfOk result (λ n. Consumes (R.remaining input.old) (R.remaining input.new) (take n buf.new)) }
    ensures end { IfOk result (λ n. n < length buf.new → IsAtEnd (R.remaining input.new)) }
    ensures err { OnErr result (TakesSome (R.remaining input.old) (R.remaining input.new)) }
{
    let mut done = 0;
    while done < buf.len() {
        let n = input.read(&mut buf[done..])?;
        if n == 0 {
            break;
        }
        done += n;
    }
    Ok(done)
}

// The length of a record's packet.
fn length_of(two: [u8; 2]) -> usize
    ensures fits { result < 2 ^ 16 }
    ensures value { result ≡ from_be_bytes w16 two }
    ensures back { to_be_bytes w16 result ≡ two }
{
    usize::from(u16::from_be_bytes(two))
}

// Reads the next record, its packet to the start of buf. The loop over records is each program's own: here it would take
// a closure, and so a `requires` that it may be called, or a trait that is longer than both loops.
pub fn next<'a, R: Read>(input: &mut R, buf: &'a mut [u8]) -> io::Result<Record<'a>>
    ensures ok { IfOk result (ReadsNext (R.remaining input.old) (R.remaining input.new) (length buf.old)) }
    ensures err { OnErr result (TakesSome (R.remaining input.old) (R.remaining input.new)) }
{
    let mut two = [0; 2];
    match fill(input, &mut two)? {
        0 => return Ok(Record::End),
        1 => return Ok(Record::Cut),
        _ => {}
    }
    let Some(packet) = buf.get_mut(..length_of(two)) else {
        return Ok(Record::Cut);
    };
    if fill(input, packet)? < packet.len() {
        return Ok(Record::Cut);
    }
    Ok(Record::Packet(packet))
}

#[cfg(test)]
mod tests {
    use super::*;
    use std::test::Fail;

    #[test]
    fn records_one_by_one(rt: HostRuntime) -> Result<(), Fail> {
        let mut input: &[u8] = &[0, 2, 7, 8, 0, 0, 0, 3, 9];
        let mut buf = [0; 4];
        assert_eq!(rt; next(&mut input, &mut buf)?, Record::Packet(&[7, 8]));
        assert_eq!(rt; next(&mut input, &mut buf)?, Record::Packet(&[]));
        assert_eq!(rt; next(&mut input, &mut buf)?, Record::Cut);
        assert_eq!(rt; next(&mut input, &mut buf)?, Record::End);
        Ok(())
    }
}
