// Whole sheets: too long, empty, cut off, or with something behind; and both sheets faulty.
use crate::sample::{Pair, SOUND};
use crate::shown::Reader;
use lines::Sheet::{self, Posts, Staff};
use std::io;

const SMALLEST: Pair<'static> = Pair {
    posts: b"schools=1\nsubjects=1\nlanes=1\nlane=1,1,0\nlist=\n",
    staff: b"teachers=1\nhome=0\nmain=1\nalso=\nwish=\npoints=0\ncost=0\n",
};

// What can be wrong with the ends of the smallest round's sheets: what is told of it, the sheet, and its bytes.
static ENDS: [(&str, Sheet, &[u8]); 6] = [
    (
        "the last byte 10 of staff is missing",
        Staff,
        b"teachers=1\nhome=0\nmain=1\nalso=\nwish=\npoints=0\ncost=0",
    ),
    (
        "staff has one byte 10 more",
        Staff,
        b"teachers=1\nhome=0\nmain=1\nalso=\nwish=\npoints=0\ncost=0\n\n",
    ),
    (
        "the last byte 10 of posts is missing",
        Posts,
        b"schools=1\nsubjects=1\nlanes=1\nlane=1,1,0\nlist=",
    ),
    (
        "posts has one byte 10 more",
        Posts,
        b"schools=1\nsubjects=1\nlanes=1\nlane=1,1,0\nlist=\n\n",
    ),
    (
        "posts has a byte 13 before each byte 10",
        Posts,
        b"schools=1\r\nsubjects=1\r\nlanes=1\r\nlane=1,1,0\r\nlist=\r\n",
    ),
    (
        "posts has an empty second line",
        Posts,
        b"schools=1\n\nsubjects=1\nlanes=1\nlane=1,1,0\nlist=\n",
    ),
];

fn show_pair(reader: &mut Reader, name: &str, pair: Pair) -> io::Result<()> {
    print!(reader.rt; "{name}: ")?;
    reader.show(pair)
}

fn show_small(reader: &mut Reader) -> io::Result<()> {
    show_pair(reader, "the smallest round", SMALLEST)?;
    for (name, sheet, bytes) in ENDS {
        show_pair(reader, name, SMALLEST.with(sheet, bytes))?;
    }
    Ok(())
}

fn show_empty(reader: &mut Reader) -> io::Result<()> {
    let turned = Pair::new(SOUND.staff, SOUND.posts);
    let behind = Pair::new(
        b"schools=1\nsubjects=1\nlanes=1\nlane=1,1,0\nlist=\n!",
        b"!",
    );
    let pairs: [(&str, Pair); 6] = [
        ("posts is empty", SOUND.with(Posts, b"")),
        ("staff is empty", SOUND.with(Staff, b"")),
        ("both are empty", Pair::new(b"", b"")),
        ("a wrong key, and no byte 10", SOUND.with(Posts, b"x")),
        ("the sheets change places", turned),
        ("both have something behind", behind),
    ];
    for (name, pair) in pairs {
        show_pair(reader, name, pair)?;
    }
    Ok(())
}

fn show_long(reader: &mut Reader) -> io::Result<()> {
    let full = vec![in reader.rt.alloc(); b'\n'; 30000]?;
    let over = vec![in reader.rt.alloc(); b'\n'; 30001]?;
    let pairs: [(&str, Pair); 6] = [
        ("posts is 30000 bytes 10", SOUND.with(Posts, &full)),
        ("posts is 30001 bytes 10", SOUND.with(Posts, &over)),
        ("staff is 30000 bytes 10", SOUND.with(Staff, &full)),
        ("staff is 30001 bytes 10", SOUND.with(Staff, &over)),
        ("both are 30001 bytes 10", Pair::new(&over, &over)),
        ("the sound pair again", SOUND),
    ];
    for (name, pair) in pairs {
        show_pair(reader, name, pair)?;
    }
    Ok(())
}

pub(crate) fn show_wholes(reader: &mut Reader) -> io::Result<()> {
    show_small(reader)?;
    show_empty(reader)?;
    show_long(reader)
}
