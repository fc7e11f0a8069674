// What can be said of every plan's length beforehand. The theorems stand in proofs/.

#![tactic(auto)]
