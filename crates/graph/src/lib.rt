// Definitions and theory of column unification: see specs/ and proofs/. The limits of specs/Limits, for code.
#![tactic(auto)]

pub const NODES: usize = 64; // of a workspace

pub const CHILDREN: usize = 4; // of a functor node

pub const EQUATIONS: usize = 256; // held

pub const LINES: usize = 8192; // of a proof

pub const BUFFER: usize = 65536; // bytes of a proof buffer: 8 for each line
