//! Worked calls of the libraries: a fixture for each kind of them.
#![tactic(auto)]

mod fixture;

use crate::fixture::AnyFixture;
use anyhow::Result;
use xd_calls_lines::run;

fn main(rt: HostRuntime) -> Result<()> {
    run::<AnyFixture>(&rt)
}
