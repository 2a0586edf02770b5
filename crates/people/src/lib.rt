// What a person reads of a picture: ports in words, the sentence of a number, and the tree.
#![tactic(auto)]

mod causes;
mod drawing;
mod fixed;
mod holding;
mod lines;
mod neighbours;
mod patching;
mod ports;
mod sentences;
mod settings;
mod words;

pub use drawing::print_tree;
pub use sentences::{print_sentence, print_trial_sentence};
