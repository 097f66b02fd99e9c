// What is shown of a sheet with a fault.
use lines::{Fault, Sheet};
use std::io;

// One line on the standard error: the file, the line and what is wrong there. A sheet that is too long has no line at fault.
pub fn show_fault(rt: &HostRuntime, fault: Fault) -> io::Result<()> {
    let name = match Sheet::from(fault.sheet) {
        Sheet::Posts => "posts.txt",
        Sheet::Staff => "staff.txt",
    };
    let line = fault.line;
    let number = fault.kind.number();
    let wrong = fault.kind;
    if line == 0 {
        eprintln!(rt; "walkthrough: {name}: refused {number} ({wrong})")
    } else {
        eprintln!(rt; "walkthrough: {name}, line {line}: refused {number} ({wrong})")
    }
}
