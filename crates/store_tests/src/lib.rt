#![tactic(auto)]

// Examples of the store over each part: the answers to lists of calls, and the cells, bytes and counts afterwards.
// The expected values are reckoned by hand from the rules.
#[cfg(test)]
mod faults;
#[cfg(test)]
mod flash_store;
#[cfg(test)]
mod fuse_store;
#[cfg(test)]
mod lists;
#[cfg(test)]
mod makings;
#[cfg(test)]
mod paired_store;
#[cfg(test)]
mod renewals;
#[cfg(test)]
mod runs;
#[cfg(test)]
mod worked;
