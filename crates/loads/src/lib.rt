// What writes and whole loads leave, as theorems over their promises. They stand in specs/, and there is no code here.
#![tactic(auto)]
