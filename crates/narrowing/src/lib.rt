// The search for the first cheapest arborescence with no program: what it keeps from step to step. Definitions and laws
// only.
#![tactic(auto)]
