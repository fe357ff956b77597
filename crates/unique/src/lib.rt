// No two bands have one code, and there is one right reader: theorems only.
#![tactic(auto)]
