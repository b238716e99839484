//! Tables over the client of a service: what each call answers and when, what is noted of segments, and that numbers go on over renewals.
//! All on one thread, with nobody at the agent's end.
#![tactic(auto)]

#[cfg(test)]
mod calls;
#[cfg(test)]
mod made;
#[cfg(test)]
mod rows;
