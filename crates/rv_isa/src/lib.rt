// The instructions of RV32IMA: their words, their arithmetic and their text.
#![tactic(auto)]

pub mod arithmetic;
pub mod decoded_word;
pub mod decoder;
pub mod encoder;
pub mod instr;
pub mod kinds;
pub mod laws;
pub mod op;
pub mod place;
pub mod text;
pub mod view;
mod word;

pub use arithmetic::{alu, amo};
pub use decoded_word::DecodedWord;
pub use decoder::decode;
pub use encoder::encode;
pub use instr::Instr;
pub use kinds::{Link, is_taken, is_terminator, link_kind, loaded, mem_size};
pub use op::{Form, Op};
pub use place::all_ops;
pub use text::instr_text;
pub use view::StepView;
