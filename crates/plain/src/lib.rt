// What goes to programs in C and Rust as plain numbers: the codes that stand for the enums.
// bindings/c/train_receiver.h has a name for each code and number; specs/Header.antt says which is which.
// specs/Faithful.antt says what it is for a plain record to stand for a state.
#![tactic(auto)]

mod codes;

pub use codes::{
    constellation, constellation_code, constellation_named, detector, detector_code,
    detector_named, symbol_code, symbol_under,
};
