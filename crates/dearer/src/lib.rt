// Request 107: what the answers to a sheet and to a dearer one say of each other: definitions and laws alone.
#![tactic(auto)]
