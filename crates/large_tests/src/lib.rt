//! End-to-end tests over the top call with 2,000 points, each kind of index over each pool, against numbers from outside.
#![tactic(auto)]

#[cfg(test)]
mod layered;
#[cfg(test)]
mod listed;
#[cfg(test)]
mod made;
#[cfg(test)]
mod pools;
#[cfg(test)]
mod vamana;
#[cfg(test)]
mod worked;
