// What a buyer reads: the three demands, the cases of the scope page and the useless devices, as theorems. They stand in proofs/: this crate has no code.
#![tactic(auto)]
