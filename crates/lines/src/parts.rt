// How bytes are parted at a separator.
ghost use Rattle.std.specs.Prelude.{◌≡◌, ◌==◌, position};
ghost use Rattle.lines.specs.Fields.{first_of, rest_of};

// The place of the first separator. A function of its own, since callers learn what a chain gave from a contract alone.
fn first_separator(bytes: &[u8], separator: u8) -> Option<usize>
    ensures { result ≡ position (λ b. b == separator) bytes.now }
{
    bytes.iter().position(|byte| *byte == separator)
}

// What stands before the first separator, and what stands after it: nothing where there is none.
pub(crate) fn cut(bytes: &[u8], separator: u8) -> (&[u8], &[u8])
    ensures first { result.0.now ≡ first_of separator bytes.now }
    ensures rest { result.1.now ≡ rest_of separator bytes.now }
{
    match first_separator(bytes, separator) {
        Some(end) => (&bytes[..end], &bytes[end + 1..]),
        None => (bytes, b""),
    }
}
