// Headers read and written, as words.
ghost use Rattle.std.specs.Prelude.{◌≡◌};
ghost use Rattle.header.specs.Write.{answer_number, done_bytes};
ghost use Rattle.abi_spec.specs.Fields.{bth_words, extension_words};
ghost use Rattle.udalopek_spec.specs.Headers.{read_header_number, read_report, read_bth, read_extension, own_words, write_number, write_output, write_report};

use header::{Header, Refusal};

// Reads a header.
#[unsafe(no_mangle)]
pub extern "C" fn udalopek_read_header(
    packet: &[u8],
    bth: &mut [u64; 11],
    extension: &mut [u64; 10],
    report: &mut [u64; 1],
) -> u8
    ensures value { result ≡ read_header_number packet.now }
    ensures bth_after { bth.new ≡ read_bth packet.now bth.old }
    ensures extension_after { extension.new ≡ read_extension packet.now extension.old }
    ensures report_after { report.new ≡ read_report packet.now }
{
    let found = decode::read(packet);
    match found {
        Err(reason) => {
            *report = [u64::from(u8::from(reason))];
            header::QUIET_DROP
        }
        Ok(h) => {
            *report = [0; 1];
            report_header(h, bth, extension)
        }
    }
}

fn report_header(h: Header, bth: &mut [u64; 11], extension: &mut [u64; 10]) -> u8
    ensures value { result ≡ 0 }
    ensures bth_after { bth.new ≡ bth_words h.bth }
    ensures extension_after { extension.new ≡ extension_words h.extension }
{
    *bth = abi::bth_words(h.bth);
    *extension = abi::extension_words(h.extension);
    0
}

// Whether words are those of the header that they say.
#[tactic(auto, using(abi_spec::proofs::Lists::pointwise_words), unfolding(udalopek_spec::specs::Headers::own_words))]
fn own_words(bth: &[u64; 11], extension: &[u64; 10]) -> bool
    ensures { result ≡ own_words bth.now extension.now }
{
    *bth == abi::bth_words(abi::bth_from(bth))
        && *extension == abi::extension_words(abi::extension_from(extension))
}

// How many bytes an answer counts; none if it is a refusal.
pub(crate) fn bytes_written(answer: Result<usize, Refusal>) -> u64
    ensures { result ≡ done_bytes answer }
{
    answer.unwrap_or(0) as u64
}

// The number that C is given for an answer.
pub(crate) fn refusal_number(answer: Result<usize, Refusal>) -> u8
    ensures { result ≡ answer_number answer }
{
    match answer {
        Ok(_) => 0,
        Err(refusal) => u8::from(refusal),
    }
}

// Writes a header.
#[unsafe(no_mangle)]
pub extern "C" fn udalopek_write_header(
    bth: &[u64; 11],
    extension: &[u64; 10],
    out: &mut [u8],
    report: &mut [u64; 1],
) -> u8
    ensures value { result ≡ write_number bth.now extension.now out.old }
    ensures out_after { out.new ≡ write_output bth.now extension.now out.old }
    ensures report_after { report.new ≡ write_report bth.now extension.now out.old }
{
    if own_words(bth, extension) {
        let b = abi::bth_from(bth);
        let e = abi::extension_from(extension);
        let h = Header {
            bth: b,
            extension: e,
        };
        let answer = encode::write(h, out);
        *report = [bytes_written(answer)];
        return refusal_number(answer);
    }
    *report = [0; 1];
    header::BAD_NUMBER
}
