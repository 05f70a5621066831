// What is general: laws of lists, numbers, tests and sums. See specs/ and proofs/; there is no code here.
#![tactic(auto)]
