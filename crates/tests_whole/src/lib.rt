//! The top call where no file can show it: words that are no command, streams that fail, inputs that are cut or too long, made
//! workloads, and the greatest ones. And what `run` writes: the parts of an output that are the same however the threads take turns,
//! orders of their steps that a gate brings about, and what watchers see. What a text comes to as another text stands in `examples/`
//! and `cases/`. One row calls the replay by itself.
#![tactic(auto)]

#[cfg(test)]
mod alike;
#[cfg(test)]
mod calls;
#[cfg(test)]
mod counted;
#[cfg(test)]
mod crowded;
#[cfg(test)]
mod cut;
#[cfg(test)]
mod drills;
#[cfg(test)]
mod faults;
#[cfg(test)]
mod gated;
#[cfg(test)]
mod held;
#[cfg(test)]
mod hold;
#[cfg(test)]
mod inputs;
#[cfg(test)]
mod long;
#[cfg(test)]
mod made;
#[cfg(test)]
mod realistic;
#[cfg(test)]
mod replayed;
#[cfg(test)]
mod size;
#[cfg(test)]
mod together;
#[cfg(test)]
mod watched;
#[cfg(test)]
mod words;
