// Laws about lists, for every crate above. They stand in specs/ and proofs/: this crate has no code.
#![tactic(auto)]
