// What is known of every board at once, and what each action and request does to it: definitions in specs/; in proofs/,
// when a board is like the work area, and that each action keeps it so.
#![tactic(auto)]
