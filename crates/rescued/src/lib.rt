// What holds of a rescue: laws, which need no code.

#![tactic(auto)]
