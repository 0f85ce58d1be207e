// A run with names by its history of commands, and what is proved of naming, dropping, returning and logs: definitions and laws alone.
#![tactic(auto)]
