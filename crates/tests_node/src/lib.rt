//! Tables over what a node of a service holds beside its clients: its mail, the inbox of what it is asked, and its claims. Each call is
//! made near its greatest size, with nothing at all, or with values from outside.
#![tactic(auto)]

#[cfg(test)]
mod claimed;
#[cfg(test)]
mod inbox;
#[cfg(test)]
mod mail;
#[cfg(test)]
mod rows;
