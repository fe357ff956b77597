// The three demands of what the calls' contracts allow, and one run of turns worked out. All of it stands in specs/.
#![tactic(auto)]
