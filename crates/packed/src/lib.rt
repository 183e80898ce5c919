// The packed image of document 01, edition 1: where its fields stand.
#![tactic(auto)]

pub mod image; // an image that is as long as its header says
pub mod layout; // header and records by their fields, and the places of the regions
