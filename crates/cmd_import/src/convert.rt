// Makes a sample file of a text log or of OWAMP records: the label, K payload sizes that are all the same, and the arrivals.
ghost use Rattle.std.specs.Prelude.{List, ◌≡◌};
ghost use Rattle.rfc4737.specs.declared.Arrival.{Arrival};
ghost use Rattle.cmd_import.specs.Convert.{Holds, RoomForAny, ImportedTo, ConvertedTo, input_refusal, input_arrivals};

use rfc4737::judge::ARRIVALS_MOST;
use sample::WriteAnswer;
use textlog::LogImport;

// The length of each list: a sample has at most 4,096 packets and as many arrivals.
const LIST_LEN: usize = ARRIVALS_MOST as usize;

// The kind of input. It is an enum, and no closure that reads it: `ImportedTo` and `input_refusal` name the kind, and it also picks the call
// that finds the refused line.
#[derive(Clone, Copy)]
pub(crate) enum Kind {
    // A text log.
    Log,
    // A text log of short sequence numbers, of 8 or 10 bits.
    Log8,
    Log10,
    // OWAMP packet records.
    Records,
}

// The packets sent: K of them, all of one payload size.
#[derive(Clone, Copy)]
pub(crate) struct Packets {
    pub(crate) k: u32,
    pub(crate) size: u16,
}

// Fills `numbers` and `times` with the arrivals of the input.
fn import_lists(
    kind: Kind,
    input: &[u8],
    k: u32,
    numbers: &mut [u32],
    times: &mut [u64],
) -> LogImport
    requires { RoomForAny numbers.old times.old }
    ensures { ImportedTo kind k input.now result numbers.new times.new }
{
    match kind {
        Kind::Log => textlog::import(input, k, numbers, times),
        Kind::Log8 => shortlog::import_8(input, k, numbers, times),
        Kind::Log10 => shortlog::import_10(input, k, numbers, times),
        Kind::Records => {
            // No `From`: both structs are other crates' types.
            let records = owamp::import(input, k, numbers, times);
            LogImport {
                refusal: records.refusal,
                arrivals: records.arrivals,
            }
        }
    }
}

// Writes the sample file of the first `imported.arrivals` entries of both lists to the start of `out`. If the import was refused,
// returns its refusal and leaves `out` unchanged. The answers of the library's calls hold a refusal's number, as C receives it.
fn convert_lists(
    imported: LogImport,
    label: &[u8],
    packets: Packets,
    numbers: &[u32],
    times: &[u64],
    out: &mut [u8],
) -> WriteAnswer
    requires { imported.refusal ≡ 0 → (l : List Arrival) × Holds packets.k imported.arrivals numbers.now times.now l }
    ensures { (l : List Arrival) → (imported.refusal ≡ 0
        → Holds packets.k imported.arrivals numbers.now times.now l)
        → ConvertedTo imported.refusal label.now packets.k packets.size l out.old result out.new }
{
    if imported.refusal != 0 {
        return WriteAnswer {
            refusal: imported.refusal,
            length: 0,
        };
    }
    let sizes = [packets.size; LIST_LEN];
    let sent = packets.k as usize;
    let n = imported.arrivals as usize;
    sample::write(label, &sizes[..sent], &numbers[..n], &times[..n], out)
}

// Writes the sample file of the input to the start of `out`. If anything is refused, `out` stays unchanged.
pub(crate) fn convert(
    kind: Kind,
    input: &[u8],
    label: &[u8],
    packets: Packets,
    out: &mut [u8],
) -> WriteAnswer
    ensures { ConvertedTo (input_refusal kind packets.k input.now) label.now packets.k packets.size
        (input_arrivals kind input.now) out.old result out.new }
{
    let mut numbers = [0u32; LIST_LEN];
    let mut times = [0u64; LIST_LEN];
    let imported = import_lists(kind, input, packets.k, &mut numbers, &mut times);
    convert_lists(imported, label, packets, &numbers, &times, out)
}
