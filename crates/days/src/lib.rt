// Days of a field and what holds on every one of them: no list empties early. All of it is mathematics, in
// specs/ and proofs/; there is no code.
#![tactic(auto)]
