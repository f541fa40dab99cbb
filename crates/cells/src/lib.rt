//! Pages of cells that can only be set, and that an erase takes back a page at a time: the interfaces, and the parts
//! that need no image.
#![tactic(auto)]

pub mod array;
pub mod bench;
pub mod fault;
pub mod laws;
pub mod lent;
pub mod paired;
