//! Images of cell arrays: the two formats, their check, fresh images, and the parts that work on an image lent to
//! them, the fuse bank and the flash part.
#![tactic(auto)]

mod check;
pub mod fault;
mod fill;
pub mod flash;
pub mod format;
pub mod fresh;
pub mod fuse;
pub mod laws;
pub mod layout;
pub mod part;
mod places;
