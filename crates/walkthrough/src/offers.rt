// The offers of all teachers at one line of the log, and who moved between two lines.
use crate::walk::Walk;
use std::alloc::{AllocError, Global};
use std::io;

// What each teacher is offered, teacher 1 first.
#[derive(Drop)]
pub struct Offers {
    lanes: Vec<Option<u16>>,
}

// The offers as they are now.
pub fn offers_now(heap: Global, walk: &Walk) -> Result<Offers, AllocError> {
    let lanes = (1..=walk.teacher_count())
        .map(|teacher| walk.offer(teacher))
        .collect(heap)?;
    Ok(Offers { lanes })
}

fn show_move(
    rt: &HostRuntime,
    teacher: usize,
    from: Option<u16>,
    to: Option<u16>,
) -> io::Result<()> {
    match (from, to) {
        (Some(a), Some(b)) => println!(rt; "  teacher {teacher} moved from lane {a} to lane {b}"),
        (Some(a), None) => println!(rt; "  teacher {teacher} moved from lane {a} to no lane"),
        (None, Some(b)) => println!(rt; "  teacher {teacher} moved from no lane to lane {b}"),
        (None, None) => Ok(()),
    }
}

// A line for each teacher whose offer changed.
pub fn show_moves(rt: &HostRuntime, before: &Offers, after: &Offers) -> io::Result<()> {
    let mut anybody = false;
    for (i, (from, to)) in before.lanes.iter().zip(after.lanes.iter()).enumerate() {
        if *from != *to {
            anybody = true;
            show_move(rt, i.saturating_add(1), *from, *to)?;
        }
    }
    if anybody {
        Ok(())
    } else {
        println!(rt; "  nobody moved")
    }
}
