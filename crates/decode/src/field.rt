// Numbers of 2, 3, 4 and 8 bytes, high byte first: one function for each width, as std has a method for
// each type, and none for 24 bits.
ghost use Rattle.std.specs.Prelude.{◌≡◌, ◌+◌, ◌<◌, length};
ghost use Rattle.header.specs.Bytes.{be2, be3, be4, be8};

pub(crate) fn be16(p: &[u8], at: usize) -> u16
    requires { at + 1 < length p.now }
    ensures { result ≡ be2 p.now at }
{
    u16::from_be_bytes([p[at], p[at + 1]])
}

pub(crate) fn be24(p: &[u8], at: usize) -> u32
    requires { at + 2 < length p.now }
    ensures { result ≡ be3 p.now at }
{
    u32::from_be_bytes([0, p[at], p[at + 1], p[at + 2]])
}

pub(crate) fn be32(p: &[u8], at: usize) -> u32
    requires { at + 3 < length p.now }
    ensures { result ≡ be4 p.now at }
{
    u32::from_be_bytes([p[at], p[at + 1], p[at + 2], p[at + 3]])
}

pub(crate) fn be64(p: &[u8], at: usize) -> u64
    requires { at + 7 < length p.now }
    ensures { result ≡ be8 p.now at }
{
    u64::from_be_bytes([
        p[at],
        p[at + 1],
        p[at + 2],
        p[at + 3],
        p[at + 4],
        p[at + 5],
        p[at + 6],
        p[at + 7],
    ])
}
