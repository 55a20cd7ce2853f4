// Laws that several crates cite and no document owns: definitions in specs/, laws in proofs/.
#![tactic(auto)]
