//! Tables over what threads share: links, the pool where no call waits and the one behind a ticket lock, the board, and the client
//! library against a port by hand. One thread drives them, and then several.
#![tactic(auto)]

#[cfg(test)]
mod board;
#[cfg(test)]
mod links;
#[cfg(test)]
mod live;
#[cfg(test)]
mod live_calls;
#[cfg(test)]
mod live_sheets;
#[cfg(test)]
mod live_size;
#[cfg(test)]
mod live_threads;
#[cfg(test)]
mod locked;
#[cfg(test)]
mod marks;
#[cfg(test)]
mod rings;
#[cfg(test)]
mod rows;
