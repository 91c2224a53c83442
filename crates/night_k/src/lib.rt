// The night of configuration K (document 01, "The verdict program"): K's stream, its list and the whole output. It stands in specs/, and there is no code here.
#![tactic(auto)]
