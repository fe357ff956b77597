// Small laws that every layer uses; all of it stands in specs/.
#![tactic(auto)]
