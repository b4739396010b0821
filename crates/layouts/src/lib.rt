// The layouts said forwards: how a site and its steps are laid out as bytes, and that the check accepts just that. Laws about the
// definitions, which need no code.

#![tactic(auto)]
