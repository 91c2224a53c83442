// A night: a fresh ledger, frames and releases, tiles, as outcomes that the entries permit. It stands in specs/, and there is no code here.
#![tactic(auto)]
