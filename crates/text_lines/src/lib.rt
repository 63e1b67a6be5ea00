//! What every text call shares: bytes in and out, lines, words and numbers. Nothing here takes memory, but for the growing
//! writer, which tests use, and a run whose lines several threads make.
#![tactic(auto)]

mod ahead;
mod answering;
mod buffered;
mod byte_in;
mod byte_out;
mod held_line;
mod law_calls;
mod line_answerer;
mod memory;
mod numbers;
mod text_line;
mod words;
mod write_behind;

pub use ahead::{INPUT_LIMIT, InFault, NextLine, READ_SIZE, ReadAhead};
pub use answering::{LineFault, answer_rest, answer_text};
pub use buffered::{Buffered, Lent, Origin};
pub use byte_in::{ByteIn, CallFailed, StdIn};
pub use byte_out::{ByteOut, StdOut};
pub use held_line::{HeldLine, KEPT_LIMIT, LINE_LIMIT};
pub use line_answerer::LineAnswerer;
pub use memory::{MemoryIn, MemoryOut};
pub use numbers::{
    law_numbers_read_back, number_i16, number_u8, number_u16, number_u32, number_u64,
};
pub use text_line::{NUMBER_DIGITS, TEXT_LIMIT, TextLine, add_number, add_word};
pub use words::{WORD_LIMIT, Words, first_word, is_passed_over, is_too_long, is_word};
pub use write_behind::{WRITE_SIZE, WriteBehind, write_all};
