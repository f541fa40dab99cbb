//! Examples of scripts: what each prints, line by line, the image that it leaves, and what becomes of both where an
//! output or a writer takes only a part. The expected texts and bytes are worked out by hand from the rules.
#![tactic(auto)]

#[cfg(test)]
mod edges;
#[cfg(test)]
mod heads;
#[cfg(test)]
mod holder;
#[cfg(test)]
mod image_left;
#[cfg(test)]
mod lengths;
#[cfg(test)]
mod lines;
#[cfg(test)]
mod scripts;
#[cfg(test)]
mod wear;
#[cfg(test)]
mod whole;
#[cfg(test)]
mod writers;
