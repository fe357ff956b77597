// Demand 3: any order of turns. All of it stands in specs/.
#![tactic(auto)]
