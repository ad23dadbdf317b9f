// A cursor over the lines of a text. It copies nothing.

// `rest` is what stands after the lines given, and `number` is the number of the last of them.
#[derive(Drop)]
pub struct TextCursor<'a> {
    pub(crate) rest: &'a [u8],
    pub(crate) number: u32,
}
