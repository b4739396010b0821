// What a result says: its records, read where they stand. Laws about the definitions, which need no code.

#![tactic(auto)]
