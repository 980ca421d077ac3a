#![tactic(auto)]

// Laws of demand 2's definition that demand 3 and the theorems behind it rest on: relocation, rooms, what a block leaves. There is no code; specs/
// has where a block stands in what the walk met, proofs/ the laws, Laws.antt first of all.
