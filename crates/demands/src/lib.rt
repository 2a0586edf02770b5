// The customer's demands: their words in specs/, their proofs in proofs/. There is no code here.
#![tactic(auto)]
