// Words of text, each way: what a line of words holds, numbers in decimal, and bytes in hex.
#![tactic(auto)]

pub mod hex;
pub mod numeral;
pub mod word;

pub use hex::{are_digits, glyph, unhex};
pub use numeral::decimal;
pub use word::word_end;
