// Radio links: what a link means, whatever it is made of, and the share, a layer over any link.
#![tactic(auto)]

pub mod gate;
pub mod interface;
pub mod message;
pub mod share;
