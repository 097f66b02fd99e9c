// What a settle answers.
use crate::stop::Result;
use matching::policy::{Limit, Standing};
use round::Place;

// Settles with the budget: the presses and whether a lane is still over-asked.
pub fn show_settle<S: Standing, L: Limit>(
    rt: &HostRuntime,
    place: &mut Place<S, L>,
    budget: u32,
) -> Result<()> {
    match place.settle(budget) {
        Ok(settled) => {
            let presses = settled.presses;
            let over = settled.over;
            println!(rt; "settle {budget}: {presses} presses, over-asked {over}")?
        }
        Err(refusal) => {
            let number = refusal.number();
            println!(rt; "settle {budget}: refused {number}")?
        }
    }
    Ok(())
}
