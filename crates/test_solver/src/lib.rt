// Another solver and another checker, to hold the library against. They know nothing of it.
#![tactic(auto)]

pub mod book; // nodes and held equations
pub mod checker; // what a proof is owed
pub mod closure; // same and below
pub mod stock; // a list of at most so many values
