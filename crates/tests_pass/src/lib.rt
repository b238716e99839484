//! Tables over the pass of a node and over its intake: each call once, from what a client recorded to the page that is handed out. All on one
//! thread, which makes the client's calls and the passes in turn.
#![tactic(auto)]

#[cfg(test)]
mod bytes;
#[cfg(test)]
mod intake;
#[cfg(test)]
mod node;
#[cfg(test)]
mod rows;
