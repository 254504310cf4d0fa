//! Plays a script of the calls that decide about service and change zones, without a database. Standard input is the
//! script, which says above its cases what its steps mean. It prints each step whose answer is another one.
#![tactic(auto)]

mod changing;
mod choosing;
mod judging;
mod performing;
mod printed;
mod putting;
mod receiving;
mod shop;

use scripts::play_input;
use shop::Shop;
use std::test::Fail;

fn main(rt: HostRuntime) -> Result<(), Fail> {
    play_input(&rt, &mut Shop::new(rt.alloc())?)
}
