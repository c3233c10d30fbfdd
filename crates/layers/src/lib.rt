// Layers: flashes made of other flashes.
#![tactic(auto)]

pub mod pair;
pub mod replacer;
pub mod whitener;
