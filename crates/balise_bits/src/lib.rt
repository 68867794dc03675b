//! Bits of telegrams and packets, stored in packed bytes and seen by contracts as a list of bits:
//! numbers are read and put in place, parts are cut out, joined and moved, and hexadecimal digits
//! are read and written.
#![tactic(auto)]

mod bit_slice;
mod bits;
mod cells;
mod fault;
mod moving;
mod nibbles;
mod places;
mod store;
mod window;

pub use balise_rules::Refusal;
pub use bit_slice::BitSlice;
pub use bits::Bits;
pub use fault::BitsFault;
pub use nibbles::hex_value;
