//! Lines of digits and lines of fields: what each is, and what digits are explained as.
#![tactic(auto)]

// What one line says.
mod digit_line;
mod field_line;
mod fours;
mod words;

// From digits to fields.
mod digit_faults;
mod explain;
mod explained;
mod explained_text;
mod fault;
mod packet;
mod telegram;

pub use balise_bits::Bits;
pub use balise_codec::{PacketFields, Placed, TelegramFields, Var};
pub use balise_lines::{Counted, WriteFault};
pub use balise_rules::Refusal;
pub use balise_text::put_fours;
pub use digit_line::{DigitLine, read_digit_line};
pub use explain::explain_line;
pub use explained::{Begun, DigitFault, Explained, FaultDue};
pub use explained_text::{put_explained, put_field};
pub use fault::FieldsFault;
pub use field_line::{FieldLine, read_field_line};
pub use fours::read_fours;
pub use words::first_word;
