// The lines and fields of a table's text, by name.
use lines::{Kind, TextCursor};

// A field's name, and its range in words.
#[derive(Clone, Copy)]
pub(crate) struct FieldName {
    pub(crate) name: &'static str,
    pub(crate) range: &'static str,
}

// The line of a number, counted from 1; an empty one if there is none.
pub(crate) fn line_at(text: &[u8], number: u32) -> &[u8] {
    number
        .checked_sub(1)
        .and_then(|before| TextCursor::new(text).nth(before as usize))
        .unwrap_or(b"")
}

// What stands in a field of a line of a kind.
pub(crate) fn field_name(kind: Option<Kind>, field: u32) -> FieldName {
    let ticks = "1 to 1,000,000";
    let ticks_or_none = "0 to 1,000,000";
    let (name, range) = match (kind, field) {
        (Some(Kind::Node), 2) => ("the node's number", "1 to 8"),
        (Some(Kind::Node), 3) => ("the letter", "E or P"),
        (Some(Kind::Chain), 2) => ("the id", "1 to 65,535"),
        (Some(Kind::Chain), 3) => ("the period", ticks),
        (Some(Kind::Chain), 4) => ("the end-to-end deadline", ticks),
        (Some(Kind::Chain), 5) => ("the arrival jitter", ticks_or_none),
        (Some(Kind::Step), 2) => ("the node", "1 to 8"),
        (Some(Kind::Step), 3) => ("the cost", ticks),
        (Some(Kind::Step), 4) => ("the local deadline", ticks),
        (Some(Kind::Step), 5) => ("the delay", ticks_or_none),
        (Some(Kind::Step), 6) => ("the blocking time", ticks_or_none),
        (Some(Kind::Step), 7) => ("the priority", "0 to 255"),
        _ => ("the field", "the range of its kind"),
    };
    FieldName { name, range }
}
