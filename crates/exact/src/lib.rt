// Exact values, whole numbers over powers of two: what precision is, what it means to round to nearest, and what follows from it.
// There is no code here. The definitions are in specs/: Exact.antt, Parts.antt, Rounding.antt and Ties.antt, in this order;
// proofs/ has what follows from them, beginning with Nearness.antt.
#![tactic(auto)]
