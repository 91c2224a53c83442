// Exactly when, and the first: one page for a whole load's number, one for a frame's verdict, one for a replica's. Theorems in specs/, and there is no code here.
#![tactic(auto)]
