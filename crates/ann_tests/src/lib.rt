//! End-to-end tests over the top call: worked files and queries, gates, sessions, and the adapters of the real outside.
#![tactic(auto)]

#[cfg(test)]
mod adapters;
#[cfg(test)]
mod build;
#[cfg(test)]
mod gates;
#[cfg(test)]
mod live;
#[cfg(test)]
mod live_ends;
#[cfg(test)]
mod live_gates;
#[cfg(test)]
mod made;
#[cfg(test)]
mod meeting;
#[cfg(test)]
mod on_a_line;
#[cfg(test)]
mod pools;
#[cfg(test)]
mod query;
#[cfg(test)]
mod signed;
#[cfg(test)]
mod stamps;
#[cfg(test)]
mod waiting;
