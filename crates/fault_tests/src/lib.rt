//! Every way in which files and outputs can fail, over the top call: damaged files, refused words, calls that fail, one
//! and two at a time, and pieces of a few bytes.
#![tactic(auto)]

#[cfg(test)]
mod cuts;
#[cfg(test)]
mod damage;
#[cfg(test)]
mod failing;
#[cfg(test)]
mod pieces;
#[cfg(test)]
mod refusals;
