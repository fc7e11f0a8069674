// What is written of a graph reads back, and what a text says is what is read: theorems in proofs/.

#![tactic(auto)]
