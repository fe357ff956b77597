// What every call keeps: a lawful desk stays lawful, and other keys see no change. All of it stands in specs/.
#![tactic(auto)]
