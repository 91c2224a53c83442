// The image's fields: one named reader each, over the tables of the image in a lent buffer. No other crate reads bits: which bits a field has is said here, and
// proved to be what the manual's numbers say of the rows. Each is the manual's field by name, over the one `bits::field`: two readers differ by more than two
// numbers, since the name, the range and the promise are the manual's. A field of one bit is a number as well, 0 or 1, as the manual has it.
// That the entry is there (`Held`) is asked in each contract, and no type has it: docs/ENTRIES.md names the readers, which take any image and entry that meet it.
#![tactic(auto)]

pub mod address;
mod bits;
pub mod forwarding;
pub mod mac;
pub mod parameters;
pub mod policing;
pub mod retagging;
pub mod vlan;
