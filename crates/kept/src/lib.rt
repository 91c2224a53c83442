// A ledger of one's own is never refused with 39. Specs only.
#![tactic(auto)]
