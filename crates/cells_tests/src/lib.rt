// Examples of cell arrays and images: each row of the tables of refusals at its bound, and what each call writes.
// The expected bytes and counts are written out by hand.
#![tactic(auto)]

#[cfg(test)]
mod arrays;
#[cfg(test)]
mod bench_part;
#[cfg(test)]
mod faults;
#[cfg(test)]
mod fresh_images;
#[cfg(test)]
mod image_check;
#[cfg(test)]
mod image_parts;
#[cfg(test)]
mod paired_part;
#[cfg(test)]
mod sample_images;
