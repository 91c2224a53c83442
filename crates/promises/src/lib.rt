// The demands of document 00 as theorems. They stand in specs/, and there is no code here.
#![tactic(auto)]
