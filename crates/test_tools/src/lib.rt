// What the test programs share: counts, random numbers, buffers, the library's replies as one enum, and workspaces.
#![tactic(auto)]

pub mod bytes; // buffers
pub mod counts; // how often
pub mod random; // random numbers
pub mod replies; // what the library's calls reply
pub mod workspaces; // made, and held against the book
