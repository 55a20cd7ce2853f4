// What a verdict means, for every board at once, and the customer's third demand: definitions in specs/, theorems in
// proofs/.
#![tactic(auto)]
