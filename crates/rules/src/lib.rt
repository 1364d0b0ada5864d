// The rules of document 01 as definitions, and their laws; no code.
#![tactic(auto)]
