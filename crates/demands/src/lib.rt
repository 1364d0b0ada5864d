// Demands 1 to 3 over the exported calls. No code.
#![tactic(auto)]
