#![tactic(auto)]

// Demand 3 with rows of values in the history (document 02, Req 01): an order is one call or a row, and an accepted row is read as its
// single writes (specs/). The claim about every sequence of orders is proved as `demand_3_with_rows` (proofs/Claimed.antt). There is no
// code here.
