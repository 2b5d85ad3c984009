// Sums (xor) of words that are moved up or down, as the code of `crc` takes them: laws, and no code. What is claimed of
// all words of n bits is tested at the n powers of two.
#![tactic(auto)]
