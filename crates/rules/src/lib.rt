// The rules of document 01 and the theorem of demand 3: definitions in specs/, proofs in proofs/, no code.
#![tactic(auto)]
