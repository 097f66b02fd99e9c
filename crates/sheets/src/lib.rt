// The two sheets that open a posting round: posts (schools, subjects, lanes) and staff (teachers). They are read into tables whose memory was
// had before, or refused with the first fault; and a round's tables are written back as the one pair of sheets that describes them.
#![tactic(auto)]

mod handed;
mod laws;
mod posts;
mod records;
mod refusals;
mod sheets;
mod spots;
mod staff;
mod wishes;
mod writes;

pub use handed::line_text;
pub use laws::format_is_canonical;
pub use records::{Lane, Teacher};
pub use refusals::{WishRefusal, WriteRefusal};
pub use sheets::Sheets;
pub use wishes::wishes_ok;
pub use writes::write_whole;
