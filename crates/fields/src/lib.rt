// What the programs print of a value that may be missing.
#![tactic(auto)]

mod field;

pub use field::Field;
