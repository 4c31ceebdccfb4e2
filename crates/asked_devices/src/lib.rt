// Computed cases only: see specs/.
#![tactic(auto)]
