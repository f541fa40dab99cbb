//! Listings of flash images: what an image holds, page by page.
//! They are read through the interface of erasable arrays, and alter nothing.
#![tactic(auto)]

pub mod listing;
pub mod report;
