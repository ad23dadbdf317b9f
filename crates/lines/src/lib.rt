// The lines of a table's text, and what each is: a record of its kind, or the first fault.
#![tactic(auto)]

mod cursor;
mod faults;
mod kinds;
mod line;
mod numbers;
mod parts;
mod places;
mod reading;
mod text;
mod texts;
mod values;

pub use faults::{Fault, LineFault, TableFault};
pub use line::{Kind, Line, NodeLine};
pub use numbers::number_in;
pub use places::letter_in;
pub use reading::{field_count, kind_of, read_line};
pub use text::TextCursor;
pub use texts::check_text;
