// The page of promises stands in proofs/Promises.antt, in the words of specs/Answers.antt.

#![tactic(auto)]
