// The sheets of a round in files, as the programs read them.
#![tactic(auto)]

ghost use Rattle.std.specs.Prelude.{◌≡◌, take, IfOk, IfSome};

use std::alloc::Global;
use std::io::Read;
use std::{fs, io};

// What is read of a file at most: one byte more than a sheet may have, so that a longer one is seen to be longer.
const MOST_BYTES: u64 = 30001;

// What the reader gives, up to so many bytes.
pub fn first_bytes<R: Read + Drop>(heap: Global, reader: R, most: u64) -> io::Result<Vec<u8>>
    ensures { IfOk result (λ bytes. IfSome (R.remaining reader) (λ all. bytes.items ≡ take most all)) }
{
    let mut bytes = Vec::new(heap);
    let mut front = reader.take(most);
    front.read_to_end(&mut bytes)?;
    Ok(bytes)
}

// The bytes of the file, as far as a sheet can go; a file that cannot be read is named on the standard error, after the program's name. No clause
// can say what a file holds.
pub fn read_sheet(rt: &HostRuntime, program: &str, path: &str) -> io::Result<Vec<u8>> {
    let answer = fs::open(rt, path).and_then(|file| first_bytes(rt.alloc(), file, MOST_BYTES));
    if let Err(e) = &answer {
        eprintln!(rt; "{program}: cannot read {path}: {e}")?;
    }
    answer
}

#[cfg(test)]
mod tests {
    use super::*;
    use std::test::Fail;

    #[test]
    fn a_front_is_read(rt: HostRuntime) -> Result<(), Fail> {
        let all = first_bytes(rt.alloc(), b"lanes=3\n".as_slice(), 30001)?;
        assert_eq!(rt; all.as_slice(), b"lanes=3\n".as_slice());
        let front = first_bytes(rt.alloc(), b"lanes=3\n".as_slice(), 5)?;
        assert_eq!(rt; front.as_slice(), b"lanes".as_slice());
        Ok(())
    }
}
