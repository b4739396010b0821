// A run file in chunks, cut anywhere: laws about the definitions, which need no code. What is read at a place depends on the
// bytes there only, so walking one stretch of bytes and then another is walking the two as one.

#![tactic(auto)]
