// Definitions and laws alone: lists made by index, bounded tests and sums. There is no code here.
#![tactic(auto)]
