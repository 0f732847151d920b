// A computed proof alone: there is no code here.
#![tactic(auto)]
