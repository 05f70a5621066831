// Demand 3: specs/History has the claim about every list of calls, proofs/Demand3 its proof. There is no code here.
#![tactic(auto)]
