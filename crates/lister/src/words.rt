// Numbers in words: an opcode's, that of the check that dropped a packet, and a number of bytes.
use header::Reason;
use opcode::OpcodeClass;
use std::fmt;

// The services, kinds and places are numbers, as `opcode` has them. No packet that reads has another service.
fn service(n: u8) -> &'static str {
    match n {
        opcode::RC => "RC",
        opcode::UC => "UC",
        _ => "other",
    }
}

fn kind(n: u8) -> &'static str {
    match n {
        opcode::SEND => "SEND",
        opcode::WRITE => "RDMA WRITE",
        opcode::READ => "RDMA READ request",
        opcode::READ_RESPONSE => "RDMA READ response",
        opcode::ACKNOWLEDGE => "Acknowledge",
        opcode::ATOMIC_ACKNOWLEDGE => "Atomic Acknowledge",
        opcode::CMP_SWAP => "CmpSwap",
        opcode::FETCH_ADD => "FetchAdd",
        _ => "reserved",
    }
}

// Nothing for a kind of which there are no parts.
fn place(class: &OpcodeClass) -> &'static str {
    match class.kind {
        opcode::SEND | opcode::WRITE | opcode::READ_RESPONSE => match class.place {
            opcode::FIRST => " First",
            opcode::MIDDLE => " Middle",
            opcode::LAST => " Last",
            _ => " Only",
        },
        _ => "",
    }
}

fn immediate(follows: u8) -> &'static str {
    match follows {
        opcode::IMMEDIATE | opcode::RETH_IMMEDIATE => " with Immediate",
        _ => "",
    }
}

// An opcode in words.
#[derive(Drop)]
pub(crate) struct Opcode(pub(crate) u8);

impl fmt::Display for Opcode {
    fn fmt<W: fmt::Write>(&self, f: &mut fmt::Formatter<W>) -> fmt::Result {
        let class = opcode::class(self.0);
        let service = service(self.0 / opcode::PER_SERVICE);
        let kind = kind(class.kind);
        let place = place(&class);
        let immediate = immediate(class.follows);
        write!(f, "{service} {kind}{place}{immediate}")
    }
}

// Why reading dropped a packet. It makes no other checks. No Display of Reason: a pair's check of the service asks for
// more than these words say.
pub(crate) fn check_words(reason: Reason) -> &'static str {
    match reason {
        Reason::Length => "length, not 12 to 4,128 bytes or no multiple of 4",
        Reason::Version => "transport version, not 0",
        Reason::Service => "service, neither RC nor UC",
        Reason::Short => "too short for its headers",
        _ => "other",
    }
}

// A number of bytes.
#[derive(Drop)]
pub(crate) struct Size(pub(crate) usize);

impl fmt::Display for Size {
    fn fmt<W: fmt::Write>(&self, f: &mut fmt::Formatter<W>) -> fmt::Result {
        match self.0 {
            1 => write!(f, "1 byte"),
            n => write!(f, "{n} bytes"),
        }
    }
}
