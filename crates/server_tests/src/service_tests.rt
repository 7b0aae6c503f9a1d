//! Tests of `service` that need a call or a device that no script can make: its answers to messages are in `crates/cases`.

mod arrivals;
mod devices;
mod foreseen;
mod judging;
mod large;
mod reading;
mod slices;
