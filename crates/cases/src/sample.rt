// A sound pair of sheets, and what can be made of one.
use lines::Sheet;
use std::alloc::{AllocError, Global};

pub(crate) const BOTH: [Sheet; 2] = [Sheet::Posts, Sheet::Staff];

pub(crate) const SOUND: Pair<'static> = Pair {
    posts: b"schools=3\nsubjects=3\nlanes=2\nlane=1,1,2\nlist=2,1\nlane=1,3,60000\nlist=\n",
    staff: b"teachers=2\nhome=0\nmain=3\nalso=1,2\nwish=2,1\npoints=50\ncost=100\nhome=2\nmain=1\nalso=\nwish=\npoints=0\ncost=0\n",
};

// The bytes of two sheets that are read together.
#[derive(Clone, Copy)]
pub(crate) struct Pair<'a> {
    pub(crate) posts: &'a [u8],
    pub(crate) staff: &'a [u8],
}

impl<'a> Pair<'a> {
    pub(crate) fn new(posts: &'a [u8], staff: &'a [u8]) -> Pair<'a> {
        Pair { posts, staff }
    }

    // The bytes of this sheet.
    pub(crate) fn sheet(self, sheet: Sheet) -> &'a [u8] {
        match sheet {
            Sheet::Posts => self.posts,
            Sheet::Staff => self.staff,
        }
    }

    // The pair with these bytes in the place of the sheet.
    pub(crate) fn with(self, sheet: Sheet, bytes: &'a [u8]) -> Pair<'a> {
        match sheet {
            Sheet::Posts => Pair::new(bytes, self.staff),
            Sheet::Staff => Pair::new(self.posts, bytes),
        }
    }
}

// The sheet with the text in the place of the line, which goes by its number, from 1.
pub(crate) fn swapped(
    heap: Global,
    bytes: &[u8],
    line: usize,
    text: &str,
) -> Result<Vec<u8>, AllocError> {
    let mut out = Vec::new(heap);
    for (number, old) in (1..).zip(bytes.split_inclusive(|b| *b == b'\n')) {
        if number == line {
            out.extend_from_slice(text.as_bytes())?;
            out.push(b'\n')?;
        } else {
            out.extend_from_slice(old)?;
        }
    }
    Ok(out)
}
