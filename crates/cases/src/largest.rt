// The largest round: as many of everything as there may be, and each number as long as it may be.
ghost use Rattle.std.specs.Iterator.{IsFinite};

use crate::sample::Pair;
use crate::shown::Reader;
use std::alloc::{AllocError, Global};
use std::io;

// Adds the numbers with commas between them.
fn add_list<I: Iterator<Item = u16>>(out: &mut String, numbers: I) -> Result<(), AllocError>
    requires { I.can_next numbers × IsFinite (I.remaining numbers) }
{
    let mut is_first = true;
    for n in numbers {
        if !is_first {
            out.push_str(",")?;
        }
        write!(out, "{n}")?;
        is_first = false;
    }
    Ok(())
}

// Lane i, from 0, at one of the schools 10 to 30; no two are alike. Its list names 20 of the teachers 100 to 200.
fn add_lane(out: &mut String, i: u16) -> Result<(), AllocError> {
    let school = 10 + i % 21;
    let subject = 10 - (i / 21) % 10;
    write!(out, "lane={school},{subject},60000\nlist=")?;
    add_list(out, (0..20).map(|k| 100 + (i % 101 + k) % 101))?;
    out.push_str("\n")
}

fn posts_text(heap: Global) -> Result<String, AllocError> {
    let mut out = String::from_str(heap, "schools=30\nsubjects=10\nlanes=80\n")?;
    for i in 0..80 {
        add_lane(&mut out, i)?;
    }
    Ok(out)
}

// Teacher t, from 0, with the nine subjects of ten that are not the main one, and twelve of the schools 10 to 30 as wishes.
fn add_teacher(out: &mut String, t: u16) -> Result<(), AllocError> {
    let home = 10 + t % 21;
    let main = 1 + t % 10;
    write!(out, "home={home}\nmain={main}\nalso=")?;
    add_list(out, (1..=10).filter(|n| *n != main))?;
    out.push_str("\nwish=")?;
    add_list(out, (0..12).map(|k| 10 + (t % 21 + 5 * k) % 21))?;
    out.push_str("\npoints=65535\ncost=100\n")
}

fn staff_text(heap: Global) -> Result<String, AllocError> {
    let mut out = String::from_str(heap, "teachers=200\n")?;
    for t in 0..200 {
        add_teacher(&mut out, t)?;
    }
    Ok(out)
}

pub(crate) fn show_largest(reader: &mut Reader) -> io::Result<()> {
    let rt = reader.rt;
    let posts = posts_text(rt.alloc())?;
    let staff = staff_text(rt.alloc())?;
    print!(rt; "the largest round: ")?;
    reader.show(Pair::new(posts.as_bytes(), staff.as_bytes()))?;
    let lanes = reader.sheets.lanes().len();
    let teachers = reader.sheets.teachers().len();
    println!(rt; "it has {lanes} lanes and {teachers} teachers")
}
