// What is asked of a ledger's row without a frame: a fresh one to start a list with, and the release of one unit.
// Both answer a refusal by its number: what tells it on (`flat_answers::outcome_number`) answers for every number.
#![tactic(auto)]

pub mod fresh;
pub mod release;
