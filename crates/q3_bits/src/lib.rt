//! Bit messages: fields of 1 to 32 bits, written as raw bits and code words, and read back.
#![tactic(auto)]

mod ahead;
pub mod code;
pub mod laws;
mod lengths;
pub mod reader;
pub mod report;
pub mod widths;
pub mod words;
pub mod writer;

pub use code::{Code, NoMemory};
pub use reader::{ReadError, Reader};
pub use report::bits_word;
pub use widths::{BIT, BYTE, LONG, SHORT};
pub use words::CodeError;
pub use writer::{LONGEST_MESSAGE, Overflow, Writer};
