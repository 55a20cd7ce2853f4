// Why a verdict read off the work area is that of all boards: definitions in specs/, laws in proofs/.
#![tactic(auto)]
