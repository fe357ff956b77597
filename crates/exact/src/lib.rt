// Laws of every written code; all of it stands in specs/.
#![tactic(auto)]
