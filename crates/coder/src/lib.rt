// What is shown once for every coder; all of it stands in specs/.
#![tactic(auto)]
