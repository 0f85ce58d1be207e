// Tests over the numbers below a bound, and the list of a function: definitions and laws alone, so that there is no code here to edit.
#![tactic(auto)]
