// What the tool is asked: words, options and numbers, and what is wrong with them. Each function promises its one answer.
#![tactic(auto)]

mod faults;
mod numbers;
mod words;

pub use faults::{expected, missing, shown, wrong};
pub use numbers::{NumberError, number_in};
pub use words::{Kind, Use, asks_help, kind_of, use_of};
