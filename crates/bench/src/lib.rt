// Document 01's bench cases marked P: the table in specs/, its one statement in proofs/.
#![tactic(auto)]
