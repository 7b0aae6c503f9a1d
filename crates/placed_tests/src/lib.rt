//! Tests of `placed`, `reopened`, `compared` and `moving`, through their public items, over a database and a file in memory.
#![tactic(auto)]

#[cfg(test)]
mod beside_rows;
#[cfg(test)]
mod copies;
#[cfg(test)]
mod full;
#[cfg(test)]
mod harness;
#[cfg(test)]
mod layouts;
#[cfg(test)]
mod moved;
#[cfg(test)]
mod opened;
#[cfg(test)]
mod rooms;
#[cfg(test)]
mod started;
#[cfg(test)]
mod stopped;
