// A cursor over the fields of one line. It copies nothing.
ghost use Rattle.std.specs.Prelude.{◌≡◌};
ghost use Rattle.lines.specs.Fields.{skipped};

// `field` counts the fields read, and `rest` is what stands after them.
#[derive(Drop)]
pub struct Cursor<'a> {
    pub(crate) line: &'a [u8],
    pub(crate) field: u32,
    pub(crate) rest: &'a [u8],
    ghost place: { rest.now ≡ skipped field line.now },
}
