// One line of the sound pair, swapped for another.
use crate::sample::{SOUND, swapped};
use crate::shown::Reader;
use lines::Sheet;
use std::io;

// Lines of posts, from 1, and what stands in their place.
static POSTS: [(usize, &str); 39] = [
    (1, "schools=2"),
    (1, "schools=30"),
    (1, "schools=31"),
    (1, "schools=0"),
    (1, "schools=1"),
    (1, "Schools=3"),
    (1, " schools=3"),
    (1, "schools 3"),
    (1, "school"),
    (1, "schools="),
    (1, "schools=3,3"),
    (2, "subjects=10"),
    (2, "subjects=11"),
    (2, "subjects=0"),
    (2, "lanes=2"),
    (3, "lanes=1"),
    (3, "lanes=3"),
    (3, "lanes=0"),
    (3, "lanes=81"),
    (3, "lane=2"),
    (4, "lane=3,3,0"),
    (4, "lane=4,1,2"),
    (4, "lane=0,1,2"),
    (4, "lane=1,4,2"),
    (4, "lane=1,1,60001"),
    (4, "lane=1,1"),
    (4, "lane=1,12"),
    (4, "lane=1,1,2,3"),
    (6, "lane=1,1,5"),
    (6, "lane=1,1,60001"),
    (5, "list=200,199,1"),
    (5, "list=201"),
    (5, "list=0"),
    (5, "list=7,8,7"),
    (5, "list=7,7,201"),
    (5, "list=,"),
    (5, "list=1,2,3,4,5,6,7,8,9,10,11,12,13,14,15,16,17,18,19,20"),
    (
        5,
        "list=1,2,3,4,5,6,7,8,9,10,11,12,13,14,15,16,17,18,19,20,21",
    ),
    (7, "list=1,2,"),
];

// Lines of staff, and what stands in their place.
static STAFF: [(usize, &str); 40] = [
    (6, "points=65535"),
    (6, "points=65536"),
    (6, "points=99999"),
    (6, "points=100000"),
    (6, "points=007"),
    (6, "points=00"),
    (6, "points=0"),
    (6, "points=+5"),
    (6, "points=-5"),
    (6, "points=5 "),
    (6, "points=5a"),
    (6, "points=/"),
    (6, "points=:"),
    (6, "points="),
    (6, "points=5,5"),
    (1, "teachers=201"),
    (1, "teachers=0"),
    (1, "teachers=1"),
    (1, "teachers=3"),
    (2, "home=3"),
    (2, "home=4"),
    (2, "house=1"),
    (3, "main=0"),
    (3, "main=4"),
    (3, "main=2"),
    (4, "also=2,1"),
    (4, "also=2,2"),
    (4, "also=1,3"),
    (4, "also=4"),
    (4, "also=0,1"),
    (4, "also=3,4"),
    (4, "also=1,1,1,1,1,1,1,1,1,1"),
    (5, "wish=3,2,1"),
    (5, "wish=2,1,2"),
    (5, "wish=4"),
    (5, "wish=2,,1"),
    (5, "wish=1,2,3,1,2,3,1,2,3,1,2,3"),
    (5, "wish=1,2,3,1,2,3,1,2,3,1,2,3,1"),
    (13, "cost=100"),
    (13, "cost=101"),
];

fn show_sheet(reader: &mut Reader, sheet: Sheet, swaps: &[(usize, &str)]) -> io::Result<()> {
    let rt = reader.rt;
    for (line, text) in swaps {
        print!(rt; "{sheet} {line} {text}: ")?;
        let bytes = swapped(rt.alloc(), SOUND.sheet(sheet), *line, text)?;
        reader.show(SOUND.with(sheet, &bytes))?;
    }
    Ok(())
}

pub(crate) fn show_swaps(reader: &mut Reader) -> io::Result<()> {
    show_sheet(reader, Sheet::Posts, &POSTS)?;
    show_sheet(reader, Sheet::Staff, &STAFF)
}
