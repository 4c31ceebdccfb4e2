// What the programs share: a file, or lines parted into fields, taken from standard input, numbers read from digits, and bytes shown in hexadecimal.
#![tactic(auto)]

mod input;
mod output;

pub use input::{
    AT_ONCE, Ahead, Input, KEPT, KEPT_FILE, field_end, next_line, number_in, read_file, start,
    whole,
};
pub use output::Hex;
