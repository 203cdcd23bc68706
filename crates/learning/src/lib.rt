// What a search learns from its stops. It knows nothing of rules and lists, only of states and the positions that complete them.
// A search stands on nogood, on reason, and on what store hands back. The rest is advice, of which any answer is right: which pairs store keeps, and trail.
#![tactic(auto)]

pub mod nogood;
pub mod reason;
pub mod store;
pub mod trail;
