#![tactic(auto)]

// The worked examples of document 01 that are marked (P): one list (specs/Examples.antt) and one theorem over it
// (proofs/WorkedExamples.antt). There is no code here; the examples are also run, as cases of tests/cases.
