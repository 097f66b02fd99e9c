// Where the two sheets are.
use anyhow::{Result, bail};
use std::env;

// The paths of the two sheets.
#[derive(Drop)]
pub struct SheetPaths {
    pub posts: String,
    pub staff: String,
}

// The two paths given as arguments, or posts.txt and staff.txt in the working folder.
pub fn sheet_paths(rt: &HostRuntime) -> Result<SheetPaths> {
    let mut args = env::args(rt)?.skip(1);
    match (args.next(), args.next(), args.next()) {
        (None, None, None) => {
            let posts = String::from_str(rt.alloc(), "posts.txt")?;
            let staff = String::from_str(rt.alloc(), "staff.txt")?;
            Ok(SheetPaths { posts, staff })
        }
        (Some(posts), Some(staff), None) => Ok(SheetPaths { posts, staff }),
        _ => {
            eprintln!(rt;
                "posting: give no argument, or the paths of the posts sheet and of the staff sheet"
            )?;
            bail!("one argument, or more than two")
        }
    }
}
