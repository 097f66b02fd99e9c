// The round that is followed.
ghost use Rattle.std.specs.Prelude.{◌≡◌, ◌≤◌, map, length, Err, MatchResult};
ghost use Rattle.round.specs.Held.{place_of, on_place};
ghost use Rattle.round.specs.Log.{call_of, answer_call};
ghost use Rattle.round.specs.Questions.{offer_asked, cutoff_asked, over_asked_asked};
ghost use Rattle.rules.specs.Held.{seats_held};
ghost use Rattle.rules.specs.Limits.{fits_seats};
ghost use Rattle.sheets.specs.Held.{model_of};
ghost use Rattle.sheets.specs.Model.{lane_record, teacher_record};
ghost use Rattle.sheets.specs.Read.{sheets_of};
ghost use Rattle.walkthrough.specs.Opened.{OpenedWith};
ghost use Rattle.walkthrough.specs.Asked.{offered, known, holds};

use crate::files::show_fault;
use anyhow::Result;
use book::Book;
use lines::Fault;
use round::{Answer, Command, Place};
use rules::{Points, Seats};
use sheets::{Lane, Sheets, Teacher};

// The place that holds the round, and its sheets with the wishes as they are now. Points decide, and sizes are seats.
#[derive(Drop)]
pub struct Walk {
    place: Place<Points, Seats>,
    sheets: Sheets,
}

// A place with the round of the two sheets. Opening takes them off the desk, so they are read onto it once more.
fn opened(
    desk: &mut Sheets,
    memory: Book,
    posts: &[u8],
    staff: &[u8],
) -> Result<Place<Points, Seats>, Fault>
    ensures { MatchResult result (λ p. OpenedWith (sheets_of posts.now staff.now) (model_of desk.new) (place_of p)) (λ e. sheets_of posts.now staff.now ≡ Err e) }
{
    let mut points = Points::new();
    points.fill(desk, posts, staff)?;
    let mut seats = Seats::new();
    seats.fill(desk, posts, staff)?;
    let mut place = Place::new(points, seats, memory);
    place.open(desk, posts, staff)?;
    desk.read(posts, staff)?;
    Ok(place)
}

// Opens the round of the two sheets; a fault is shown on the standard error.
pub fn open_walk(rt: &HostRuntime, posts: &[u8], staff: &[u8]) -> Result<Walk> {
    let mut sheets = Sheets::reserve(rt.alloc())?;
    let memory = Book::reserve(rt.alloc())?;
    match opened(&mut sheets, memory, posts, staff) {
        Ok(place) => Ok(Walk { place, sheets }),
        Err(fault) => {
            show_fault(rt, fault)?;
            Err(fault.into())
        }
    }
}

impl Walk {
    // Carries out one call; an accepted wish goes into the sheets too.
    pub fn carry_out(&mut self, call: Command<'_>) -> Answer
        ensures { (result, place_of self.new.place) ≡ on_place (λ s. fits_seats (seats_held s)) (λ family. answer_call family (call_of call.entry)) (place_of self.old.place) }
    {
        let answer = self.place.carry_out(call);
        if let (Command::Wish(teacher, wishes), Answer::Wish(Ok(()))) = (call, answer) {
            let _ = self
                .sheets
                .rewish(teacher.saturating_sub(1) as usize, wishes);
        }
        answer
    }

    // How many schools there are.
    pub fn schools(&self) -> u16
        ensures { result ≡ (model_of self.now.sheets).posts.schools }
    {
        self.sheets.schools()
    }

    // How many subjects there are.
    pub fn subjects(&self) -> u16
        ensures { result ≡ (model_of self.now.sheets).posts.subjects }
    {
        self.sheets.subjects()
    }

    // The lanes, lane 1 first.
    pub fn lanes(&self) -> &[Lane]
        ensures value { map lane_record result.now ≡ (model_of self.now.sheets).posts.lanes }
        ensures few { length result.now ≤ 80 }
    {
        self.sheets.lanes()
    }

    // The teachers, teacher 1 first.
    pub fn teachers(&self) -> &[Teacher]
        ensures value { map teacher_record result.now ≡ (model_of self.now.sheets).teachers }
        ensures few { length result.now ≤ 200 }
    {
        self.sheets.teachers()
    }

    // How many lanes there are.
    pub fn lane_count(&self) -> u16
        ensures { result ≡ length (model_of self.now.sheets).posts.lanes }
    {
        self.sheets.lanes().len() as u16
    }

    // How many teachers there are.
    pub fn teacher_count(&self) -> u16
        ensures { result ≡ length (model_of self.now.sheets).teachers }
    {
        self.sheets.teachers().len() as u16
    }

    // The teacher's offer, if any.
    pub fn offer(&self, teacher: u16) -> Option<u16>
        ensures { result ≡ offered (offer_asked teacher (place_of self.now.place).round) }
    {
        self.place.offer(teacher).ok().flatten()
    }

    // The lane's cutoff; every lane of the round has one.
    pub fn cutoff(&self, lane: u16) -> Option<u16>
        ensures { result ≡ known (cutoff_asked lane (place_of self.now.place).round) }
    {
        self.place.cutoff(lane).ok()
    }

    // Is it an over-asked lane?
    pub fn is_over_asked(&self, lane: u16) -> bool
        ensures { result ≡ holds (over_asked_asked (fits_seats (seats_held (place_of self.now.place).limit)) lane (place_of self.now.place).round) }
    {
        matches!(self.place.is_over_asked(lane), Ok(true))
    }
}
