#![tactic(auto)]

// Demand 3: two neighbouring blocks of an accepted log exchanged. There is no code; specs/ has the statement, proofs/ the theorem `demand_3`.
