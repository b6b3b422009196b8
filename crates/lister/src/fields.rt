// The fields of each header, a line for each. A hexadecimal one has all the digits of its field.
use crate::words::Opcode;
use header::{Aeth, AtomicEth, Bth, Reth};
use std::io::{self, Write};

pub(crate) fn bth<W: Write>(out: &mut W, b: &Bth) -> io::Result<()> {
    writeln!(out, "  BTH")?;
    writeln!(
        out,
        "    opcode      {:#04x}  {}",
        b.opcode,
        Opcode(b.opcode)
    )?;
    writeln!(out, "    SE          {}", u8::from(b.se))?;
    writeln!(out, "    MigReq      {}", u8::from(b.migreq))?;
    writeln!(out, "    PadCnt      {}", b.pad)?;
    writeln!(out, "    TVer        {}", b.tver)?;
    writeln!(out, "    P_Key       {:#06x}", b.pkey)?;
    writeln!(out, "    reserved 8  {:#04x}", b.reserved8)?;
    writeln!(out, "    DestQP      {:#08x}", b.dest)?;
    writeln!(out, "    AckReq      {}", u8::from(b.ackreq))?;
    writeln!(out, "    reserved 7  {:#04x}", b.reserved7)?;
    writeln!(out, "    PSN         {}", b.psn.0)
}

pub(crate) fn reth<W: Write>(out: &mut W, r: &Reth) -> io::Result<()> {
    writeln!(out, "  RETH")?;
    writeln!(out, "    address     {:#018x}", r.address)?;
    writeln!(out, "    R_Key       {:#010x}", r.key)?;
    writeln!(out, "    DMA length  {}", r.length)
}

pub(crate) fn atomic_eth<W: Write>(out: &mut W, a: &AtomicEth) -> io::Result<()> {
    writeln!(out, "  AtomicETH")?;
    writeln!(out, "    address     {:#018x}", a.address)?;
    writeln!(out, "    R_Key       {:#010x}", a.key)?;
    writeln!(out, "    swap/add    {:#018x}", a.swap)?;
    writeln!(out, "    compare     {:#018x}", a.compare)
}

pub(crate) fn aeth<W: Write>(out: &mut W, a: &Aeth) -> io::Result<()> {
    writeln!(out, "  AETH")?;
    writeln!(out, "    syndrome    {:#04x}", a.syndrome)?;
    writeln!(out, "    MSN         {}", a.msn.0)
}

pub(crate) fn atomic_ack_eth<W: Write>(out: &mut W, original: u64) -> io::Result<()> {
    writeln!(out, "  AtomicAckETH")?;
    writeln!(out, "    original    {original:#018x}")
}

pub(crate) fn immediate<W: Write>(out: &mut W, data: u32) -> io::Result<()> {
    writeln!(out, "  Immediate")?;
    writeln!(out, "    data        {data:#010x}")
}
