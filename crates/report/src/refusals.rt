// The line of a refusal, into the caller's buffer.
ghost use Rattle.std.specs.Prelude.{◌≡◌, codes};
ghost use Rattle.writing.specs.Writing.{after_write, line_bytes};
ghost use Rattle.report.specs.Reports.{fault_bytes, nothing_bytes, write_answer};

use law::Refusal;
use lines::TableFault;
use writing::{Line, Text};

// Writes `refused,` with the number, the line and the field of a fault to the front of the buffer, and answers how many bytes these are, or 20.
// The rest of the buffer stays as it was.
pub fn write_fault(fault: &TableFault, buffer: &mut [u8]) -> Result<usize, Refusal>
    ensures value { result ≡ write_answer buffer.old (fault_bytes fault.now) }
    ensures after { buffer.new ≡ after_write buffer.old 0 (fault_bytes fault.now) }
{
    write_refusal(&[fault.fault.number(), fault.line, fault.field], buffer)
}

// Writes `refused,10,` with the rounds made to the front of the buffer, and answers how many bytes these are, or 20.
// The rest of the buffer stays as it was.
pub fn write_nothing_carries(rounds: u32, buffer: &mut [u8]) -> Result<usize, Refusal>
    ensures value { result ≡ write_answer buffer.old (nothing_bytes rounds) }
    ensures after { buffer.new ≡ after_write buffer.old 0 (nothing_bytes rounds) }
{
    let number = Refusal::NothingCarries { rounds }.number();
    write_refusal(&[number, rounds], buffer)
}

// Writes `refused` with these numbers to the front of the buffer, and answers how many bytes these are, or 20.
fn write_refusal(numbers: &[u32], buffer: &mut [u8]) -> Result<usize, Refusal>
    ensures value { result ≡ write_answer buffer.old (line_bytes (codes "refused") numbers.now) }
    ensures after { buffer.new ≡ after_write buffer.old 0 (line_bytes (codes "refused") numbers.now) }
{
    let line = Line {
        word: b"refused",
        fields: numbers,
    };
    line.put(buffer, 0).ok_or(Refusal::BufferShort)
}
