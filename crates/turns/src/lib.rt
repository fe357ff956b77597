// Any order of turns, over any desk that serves keys; all of it stands in specs/.
#![tactic(auto)]
