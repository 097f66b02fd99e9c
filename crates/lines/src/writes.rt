// A line, written.
ghost use Rattle.text.specs.Pages.{Gains};
ghost use Rattle.lines.specs.Written.{line as line_of};

use super::keys::Key;
use text::Page;

// The line, put on the page.
pub fn put_line(page: &mut Page, key: Key, ns: &[u16])
    ensures { Gains page.old (line_of key ns.now) page.new }
{
    page.put_line(key.text(), ns);
}
