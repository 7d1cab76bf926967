// The items, attributes and values of an IPP message, as parts of its bytes (encoded as RFC 2910 has it).
#![tactic(auto)]

pub mod attributes;
pub mod bytes;
pub mod items;
pub mod values;
