// Charging as the mirror image of discharging: laws, which need no code.

#![tactic(auto)]
