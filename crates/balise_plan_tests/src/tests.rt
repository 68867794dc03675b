//! The tests, by topic.

mod calls;
mod comparing;
mod copying;
mod digits;
mod group_by_telegram;
mod largest;
mod many;
mod memory;
mod naming;
mod plans;
mod reading;
mod refused;
mod resolving;
mod steps;
mod taken;
mod turned;
mod walking;
