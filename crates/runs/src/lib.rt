// Further runs of the computed table, which no edit of rules needs. No code.
#![tactic(auto)]
