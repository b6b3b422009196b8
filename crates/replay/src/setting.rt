// The pair that the packets are for, its tables and its memory.
use pair::{Pair, Setup, Status};
use sequence::Psn;
use table::{Entry, Region};

fn setup() -> Setup {
    let start = Psn(7);
    Setup {
        service: opcode::RC,
        pmtu: 256,
        ours: 0x12,
        theirs: 0x34,
        pkey: 0xffff,
        start,
        timer: 0,
        send: true,
        write: true,
        read: true,
        atomic: true,
        memory: 4096,
    }
}

fn region() -> Region {
    Region {
        key: 0x1000,
        address: 0x10000,
        length: 1024,
        offset: 0,
        write: true,
        read: true,
        atomic: true,
    }
}

// Posts entries 0 to 15, of 128 bytes each.
fn post_entries(mut pair: Pair, entries: &mut [[u64; 3]; table::ENTRIES]) -> Pair {
    for number in 0..16 {
        let entry = Entry {
            number,
            offset: 2048 + 128 * number,
            length: 128,
        };
        pair = host_calls::post_entry(pair, entries, entry).pair;
    }
    pair
}

// Makes the pair, with its tables. No call refuses these numbers; were the region refused, every packet would be too,
// with 34, and no line would look like an answer to it.
fn pair(
    regions: &mut [[u64; 7]; table::REGIONS],
    entries: &mut [[u64; 3]; table::ENTRIES],
) -> Pair {
    let fresh = host_calls::set_up(setup(), regions);
    let added = host_calls::add_region(fresh.pair, regions, region());
    if added != Status::Executed {
        return host_calls::blank();
    }
    let posted = post_entries(fresh.pair, entries);
    host_calls::make_ready(posted).pair
}

// The tables are rows of numbers, as `responder::inbound` takes them.
#[derive(Drop)]
pub(crate) struct Setting {
    pub(crate) pair: Pair,
    regions: [[u64; 7]; table::REGIONS],
    entries: [[u64; 3]; table::ENTRIES],
    saved: [[u64; 2]; table::SAVED],
    memory: [u8; 4096],
}

impl Setting {
    pub(crate) fn new() -> Setting {
        let mut regions = [[0; 7]; table::REGIONS];
        let mut entries = [[0; 3]; table::ENTRIES];
        let pair = pair(&mut regions, &mut entries);
        Setting {
            pair,
            regions,
            entries,
            saved: [[0; 2]; table::SAVED],
            memory: [0; 4096],
        }
    }

    // Hands a packet to the pair. The responses of a READ that are to be sent are taken and go nowhere.
    pub(crate) fn receive(&mut self, packet: &[u8]) -> Status {
        let mut out = [0; 24];
        let answer = responder::inbound(
            self.pair,
            &self.regions,
            &self.entries,
            &mut self.saved,
            &mut self.memory,
            packet,
            &mut out,
        );
        self.pair = answer.pair;
        self.drain();
        answer.status
    }

    // Takes as many responses as are to be sent.
    fn drain(&mut self) {
        for _ in 0..self.pair.read.remaining {
            let mut out = [0; 272];
            self.pair = responder::next_response(self.pair, &self.memory, &mut out).pair;
        }
    }
}
