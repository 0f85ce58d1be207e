// A run by its history of events, and what is proved of followed runs and logs: definitions and laws alone.
#![tactic(auto)]
