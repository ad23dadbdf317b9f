// How a field is read as a number.
ghost use Rattle.std.specs.Prelude.{◌≡◌, ◌≤◌, length};
ghost use Rattle.lines.specs.Numbers.{digits_answer, number_answer, InverseOfWriting};

use crate::faults::Fault;

const MOST_DIGITS: usize = 7;

const LEADING_ZERO: u8 = b'0';

// The number that at most seven digits write. A loop: no closure of a fold knows how many digits came before, so that the next sum fits.
fn digits_in(digits: &[u8]) -> Result<u32, Fault>
    requires { length digits.now ≤ 7 }
    ensures { result ≡ digits_answer 0 digits.now }
{
    let mut n: u32 = 0;
    for byte in digits {
        if !byte.is_ascii_digit() {
            return Err(Fault::NotANumber);
        }
        n = n * 10 + u32::from(*byte - b'0');
    }
    Ok(n)
}

// The number in a field of 1 to 7 digits, with no leading zero on more than one digit.
pub fn number_in(field: &[u8]) -> Result<u32, Fault>
    ensures value { result ≡ number_answer field.now }
    ensures inverse { InverseOfWriting result field.now }
{
    let [first, rest @ ..] = field else {
        return Err(Fault::EmptyField);
    };
    if rest.len() < MOST_DIGITS && (*first != LEADING_ZERO || rest.is_empty()) {
        digits_in(field)
    } else {
        Err(Fault::NotANumber)
    }
}
