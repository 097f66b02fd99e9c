// Limits and rounds at work, one line a case, through the calls that a district makes.
#![tactic(auto)]

mod limits;
mod pair;
mod played;
mod settled;
mod small;
mod stop;

use limits::{show_caps, show_rows};
use played::show_round;
use small::{show_cap, show_closed, show_purse};
use stop::Result;

fn main(rt: HostRuntime) -> Result<()> {
    show_rows(&rt)?;
    show_caps(&rt)?;
    show_round(&rt)?;
    show_purse(&rt)?;
    show_closed(&rt)?;
    show_cap(&rt)
}
