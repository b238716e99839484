//! Tables over what a service links beside the client library: its settings, its messages, the outbox of a node, and what a node says
//! of how whole a trace is. Each call is made near its greatest size, with nothing at all, or with values from outside.
#![tactic(auto)]

#[cfg(test)]
mod outbox;
#[cfg(test)]
mod rows;
#[cfg(test)]
mod settings;
#[cfg(test)]
mod whole;
#[cfg(test)]
mod wire;
