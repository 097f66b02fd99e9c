// Licences and bands.
ghost use Rattle.std.specs.Prelude.{◌≡◌, ◌≤◌, map, length, take};
ghost use Rattle.sheets.specs.Model.{teacher_record};
ghost use Rattle.market.specs.Tables.{person, teaches as teaches_of, band_of, band_in};

use lines::holds;
use sheets::Teacher;

// Is the teacher licensed for lanes of the subject?
fn teaches(p: &Teacher, subject: u16) -> bool
    ensures { result ≡ teaches_of (person (teacher_record p.now)) subject }
{
    p.main == subject || holds(p.also.as_slice(), subject)
}

// The band of a licensed teacher.
fn band(p: &Teacher, subject: u16) -> u8
    ensures { result ≡ band_of (person (teacher_record p.now)) subject }
{
    match (p.home == 0, p.main == subject) {
        (false, true) => 1,
        (false, false) => 2,
        (true, true) => 3,
        (true, false) => 4,
    }
}

// The band, or 0 for a teacher who is not licensed: a lane's bands are one number a teacher, so no Option.
fn band_in(p: &Teacher, subject: u16) -> u8
    ensures { result ≡ band_in subject (person (teacher_record p.now)) }
{
    if teaches(p, subject) {
        band(p, subject)
    } else {
        0
    }
}

// The bands of the teachers in a lane of the subject, one byte a teacher; bytes past the teachers are 0.
// An array and no Vec: memory is had once before a round, and no call allocates.
pub fn bands_of(teachers: &[Teacher], subject: u16) -> [u8; 200]
    ensures { length teachers.now ≤ 200 → take (length teachers.now) result ≡ map (band_in subject) (map person (map teacher_record teachers.now)) }
{
    let mut bands = [0; 200];
    let n = teachers.len().min(200);
    for (t, band) in bands[..n].iter_mut().enumerate() {
        *band = band_in(&teachers[t], subject);
    }
    bands
}
