// The laws of IEEE 754 rounding, for crates that do arithmetic on floats. There is no code here: the laws stand in
// proofs/, over the toolchain's account of floats, `lib.Ieee`, for either format, and another crate cites them as
// `Rattle.rounding.proofs.FILE.{..}`. A finite float not below zero is its exact fraction `num x / den x`.
//
//   FromZero       the finite values not below zero and their order; no minus sign comes of values that have none
//   Compare        the code's tests `<`, `<=`, `==` as facts of fractions, and back
//   Operations     +, -, *, / are the exact fraction, rounded once
//   HalfUnit       a rounded value is at most half a unit in the last place away
//   RelativeError  in the normal range, at most 1 part in 2 ^ prec away: 2 ^ -53 for doubles
//   Factors        how such errors add up over several operations
//   Products       the error of a product of values that carry errors already
//   Exact          what fits is exact; scaling by a power of two
//   Unique         a value that fits is what any fraction of its size rounds to
//   Monotone       rounding keeps the order, and so do the operations
//   Ranges         quotients, complements, reciprocals, products and sums in their ranges
//   Midpoint       (a + b) / 2 lies from a to b
//   Powers         powers of whole numbers, and Bernoulli's inequality
#![tactic(auto)]
