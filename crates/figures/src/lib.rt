// The figures A1 to E1 of docs/RULES.md, which are about the definitions and need no code: specs/Table.antt
// has the table and proofs/Hold.antt the claim.

#![tactic(auto)]
