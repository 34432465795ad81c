// No code: specs/Rows.antt is the notation in which the definitions are written.
#![tactic(auto)]
