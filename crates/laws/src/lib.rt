// Laws that any proof cites; they stand in specs/, and there is no code here.
#![tactic(auto)]
