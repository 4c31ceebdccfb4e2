// The slices that C lends as a state of `paper`, and what the calls leave in them: definitions alone.
#![tactic(auto)]
