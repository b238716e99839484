//! Tables over a hub and its parts.
#![tactic(auto)]

#[cfg(test)]
mod delivered;
#[cfg(test)]
mod given;
#[cfg(test)]
mod groups;
#[cfg(test)]
mod hub;
#[cfg(test)]
mod receipts;
#[cfg(test)]
mod rows;
#[cfg(test)]
mod saved;
#[cfg(test)]
mod standings;
#[cfg(test)]
mod traces;
