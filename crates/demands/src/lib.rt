// Nothing to run: the mission's demands as theorems about the public calls, in proofs/.
#![tactic(auto)]
