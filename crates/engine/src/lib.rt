// What the loops over rows and bands ask of a coder, whatever its registers: definitions and laws, no code.
#![tactic(auto)]
