//! Tables over the parts of the program: the ground and the formats, what runs in a service, the collector, the agent's parts, the
//! coordinator, a node's agent and the other samplers. Each call is made near its greatest size, with nothing at all, or with
//! values from outside that no file of `examples/` or `cases/` has.
#![tactic(auto)]

#[cfg(test)]
mod agent;
#[cfg(test)]
mod auto;
#[cfg(test)]
mod base;
#[cfg(test)]
mod client;
#[cfg(test)]
mod collect;
#[cfg(test)]
mod compare;
#[cfg(test)]
mod coord;
#[cfg(test)]
mod index;
#[cfg(test)]
mod journal;
#[cfg(test)]
mod make;
#[cfg(test)]
mod pins;
#[cfg(test)]
mod pool;
#[cfg(test)]
mod records;
#[cfg(test)]
mod rows;
#[cfg(test)]
mod sched;
#[cfg(test)]
mod text;
#[cfg(test)]
mod words;
#[cfg(test)]
mod workload;
