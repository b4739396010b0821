// Whole fields taken into what is kept of a run: definitions and their laws, which need no code.

#![tactic(auto)]
