// The hub: many jobs at once over the items of a store.
//
// hub  the hub and its calls
#![tactic(auto)]

pub mod hub;

pub use hub::Hub;
