// The examples of document 01 and of the requests that are proved: theorems in `proofs` over the definitions in `specs`, no code. `run_examples` runs the others.
#![tactic(auto)]
