//! The book that callers share, and each act's seat. `show` isn't an act; it compares acts and the longest history shown.
ghost use Rattle.std.specs.Prelude.{◌≡◌, ◌≢◌, ◌↔◌, ◌≤◌, true, [], length, is_some, option_map, IsTrue, IfOk, IfSome, IfNone, OnOk, OnErr, IsSomeAnd, Err, None};
ghost use Rattle.pd_settings.specs.Keys.{key_named};
ghost use Rattle.pd_book.specs.Acts.{next, job, present_text};
ghost use Rattle.pd_book.specs.Refusals.{next_job};
ghost use Rattle.pd_book.specs.Legal.{Legal};
ghost use Rattle.pd_book.specs.TrackCache.{without_track, HandsOutTrack, CachesTrack};
ghost use Rattle.pd_book.specs.Report.{shown, owed};
ghost use Rattle.pd_book.specs.Replies.{GivesAdd, GivesEdit, GivesRemove, GivesSet, GivesStart, GivesFinish, GivesAbandon};
ghost use Rattle.pd_seat.specs.Seats.{new_seats, IsNew, RecordsAct, Unless, is_unended, Agrees, IsShown, IsShownFrom};

use crate::faults::ShowFault;
use crate::seat::Seat;
use crate::seat_lists::{
    push_act, push_noted_seat_number, remove_open_job_number,
    reserve_end_act_if_job_not_open_at_seat, reserve_many_notes_and_acts,
};
use crate::verify::are_seat_acts_as_noted;
use pd_book::{Act, Book, BookFault, Done, FinishFault, Job, Report, Ruling, SharedEdit};
use pd_settings::{Key, Settings, Value};
use pd_text::{LineEdit, Lines, Name, Text};
use pd_track::Track;
use std::alloc::{AllocError, Global};
use std::marker::Model;

/// A book, and the number of the seat that made each act. Unless it is out of memory, each call that takes a seat answers as
/// the book does, and `show` only where the history agrees with the seat; an act that is recorded is noted with the
/// seat's number and is then the seat's last. A refused call changes nothing.
#[derive(Drop)]
pub struct Held {
    /// The book.
    pub(crate) book: Book,
    /// The number of the seat that made each act, the oldest first.
    pub(crate) notes: Vec<usize>,
    /// How many seats there are.
    pub(crate) seats: usize,
}

impl Model for Held {
    ghost use Rattle.std.specs.Prelude.{reverse, vec_capacity};
    ghost use Rattle.pd_seat.specs.Seats.{HeldView};
    ghost use Rattle.pd_seat.specs.SeatInvariants.{IsNoted};

    ghost Value = { HeldView };

    ghost view = { λ h. record { seats = h.seats; book = h.book; notes = reverse h.notes.items } };

    ghost invariant = { λ h. IsNoted h.book h.notes.items (vec_capacity h.notes) };
}

impl Held {
    /// A book without acts, as `Book::new` gives it, which keeps 1 to 1,024 tracks, and seats 0 to the last.
    ///
    /// # Errors
    /// `AllocError` where a growth is refused.
    pub fn new(
        alloc: Global,
        cache: usize,
        settings: Settings,
        seats: usize,
    ) -> Result<(Held, Vec<Seat>), AllocError>
        requires some { 1 ≤ cache }
        requires few { cache ≤ 1024 }
        requires seats { 1 ≤ seats }
        ensures held { IfOk result (λ opened. IsNew cache settings seats opened.0) }
        ensures seats { IfOk result (λ opened. opened.1.items ≡ new_seats 0 seats) }
    {
        let mut made = Vec::with_capacity(alloc, seats)?;
        for number in 0..seats {
            made.push_reserved(Seat::new(alloc, number));
        }
        let held = Held {
            book: Book::new(alloc, cache, settings),
            notes: Vec::new(alloc),
            seats,
        };
        Ok((held, made))
    }

    /// Adds a script after the others.
    ///
    /// # Errors
    /// `OutOfMemory` for what is noted, else the book's.
    pub fn add(&mut self, seat: &mut Seat, name: Name, lines: Lines) -> Result<(), BookFault>
        ensures gives { Unless BookFault.OutOfMemory result (GivesAdd self.old.book.history name lines result self.new.book.history) }
        ensures legal { Legal self.old.book.history.opening self.old.book.history.past }
        ensures records { OnOk result (RecordsAct self.old seat.old (Act.Add name lines) self.new seat.new) }
        ensures tracks { self.new.book.tracks ≡ self.old.book.tracks }
        ensures refuses { OnErr result ((self.new ≡ self.old) × (seat.new ≡ seat.old)) }
    {
        let open = seat.open_jobs.len();
        let outstanding = self.book.outstanding_count();
        reserve_many_notes_and_acts(&mut self.notes, outstanding + 1, &mut seat.own, open + 1)?;
        let (text, act) = text_and_add_act(*self.notes.allocator(), &name, lines)?;
        self.book.add_with_shared_text(name, text)?;
        self.book.law_invariant();
        push_noted_seat_number(&mut self.notes, seat.number);
        push_act(&mut seat.own, act);
        Ok(())
    }

    /// Edits the text of a script.
    ///
    /// # Errors
    /// `OutOfMemory` for what is noted, else the book's.
    pub fn edit(&mut self, seat: &mut Seat, name: &Name, edit: &LineEdit) -> Result<(), BookFault>
        ensures gives { Unless BookFault.OutOfMemory result (GivesEdit self.old.book.history name.now edit.now result self.new.book.history) }
        ensures legal { Legal self.old.book.history.opening self.old.book.history.past }
        ensures records { OnOk result (RecordsAct self.old seat.old (Act.Edit name.now edit.now) self.new seat.new) }
        ensures tracks { self.new.book.tracks ≡ self.old.book.tracks }
        ensures refuses { OnErr result ((self.new ≡ self.old) × (seat.new ≡ seat.old)) }
    {
        let edit = SharedEdit::from_copied_edit(*self.notes.allocator(), edit)?;
        self.edit_and_note_act_with_shared_edit(seat, name, edit)
    }

    /// Edits the text of a script, where history and seat keep one edit.
    fn edit_and_note_act_with_shared_edit(
        &mut self,
        seat: &mut Seat,
        name: &Name,
        edit: SharedEdit,
    ) -> Result<(), BookFault>
        ensures gives { Unless BookFault.OutOfMemory result (GivesEdit self.old.book.history name.now edit result self.new.book.history) }
        ensures legal { Legal self.old.book.history.opening self.old.book.history.past }
        ensures records { OnOk result (RecordsAct self.old seat.old (Act.Edit name.now edit) self.new seat.new) }
        ensures tracks { self.new.book.tracks ≡ self.old.book.tracks }
        ensures refuses { OnErr result ((self.new ≡ self.old) × (seat.new ≡ seat.old)) }
    {
        let open = seat.open_jobs.len();
        let outstanding = self.book.outstanding_count();
        reserve_many_notes_and_acts(&mut self.notes, outstanding + 1, &mut seat.own, open + 1)?;
        let act = edit_act(&self.book, name, &edit)?;
        self.book.edit_with_shared_edit(name, edit)?;
        self.book.law_invariant();
        push_noted_seat_number(&mut self.notes, seat.number);
        push_act(&mut seat.own, act);
        Ok(())
    }

    /// Takes a script out.
    ///
    /// # Errors
    /// `OutOfMemory` for what is noted, else the book's.
    pub fn remove(&mut self, seat: &mut Seat, name: &Name) -> Result<(), BookFault>
        ensures gives { Unless BookFault.OutOfMemory result (GivesRemove self.old.book.history name.now result self.new.book.history) }
        ensures legal { Legal self.old.book.history.opening self.old.book.history.past }
        ensures records { OnOk result (RecordsAct self.old seat.old (Act.Remove name.now) self.new seat.new) }
        ensures tracks { OnOk result (self.new.book.tracks ≡ without_track name.now self.old.book.tracks) }
        ensures refuses { OnErr result ((self.new ≡ self.old) × (seat.new ≡ seat.old)) }
    {
        let open = seat.open_jobs.len();
        let outstanding = self.book.outstanding_count();
        reserve_many_notes_and_acts(&mut self.notes, outstanding + 1, &mut seat.own, open + 1)?;
        let act = Act::Remove(self.book.share_stored_name_or_given(name)?);
        self.book.remove(name)?;
        self.book.law_invariant();
        push_noted_seat_number(&mut self.notes, seat.number);
        push_act(&mut seat.own, act);
        Ok(())
    }

    /// Sets a setting.
    ///
    /// # Errors
    /// `OutOfMemory` for what is noted, else the book's.
    pub fn set(&mut self, seat: &mut Seat, key: &[u8], value: Value) -> Result<(), BookFault>
        ensures gives { Unless BookFault.OutOfMemory result (GivesSet self.old.book.history key.now value result self.new.book.history) }
        ensures legal { Legal self.old.book.history.opening self.old.book.history.past }
        ensures records { OnOk result (IsSomeAnd (key_named key.now) (λ key. RecordsAct self.old seat.old (Act.Set key value) self.new seat.new)) }
        ensures tracks { self.new.book.tracks ≡ self.old.book.tracks }
        ensures refuses { OnErr result ((self.new ≡ self.old) × (seat.new ≡ seat.old)) }
    {
        let open = seat.open_jobs.len();
        let outstanding = self.book.outstanding_count();
        reserve_many_notes_and_acts(&mut self.notes, outstanding + 1, &mut seat.own, open + 1)?;
        self.book.set(key, value)?;
        let Some(key) = Key::from_name(key) else {
            return Ok(());
        };
        self.book.law_invariant();
        push_noted_seat_number(&mut self.notes, seat.number);
        push_act(&mut seat.own, Act::Set(key, value));
        Ok(())
    }

    /// The act of the job that a start hands out, if a script waits.
    fn next_start_act_if_script_waits(&self) -> Result<Option<Act>, AllocError>
        ensures { IfOk result (λ act. act ≡ option_map (λ task. Act.Start task.number task.name) (next_job self.now.book.history)) }
    {
        let Some(name) = self.book.name_of_next_script_to_start() else {
            return Ok(None);
        };
        Ok(Some(Act::Start(self.book.next_job_number(), name.share()?)))
    }

    /// Hands out the job of the first script that waits, with room for its end; `None`, which records nothing, where none
    /// waits.
    ///
    /// # Errors
    /// `OutOfMemory` for what is noted, also where no script waits, else the book's.
    pub fn start(&mut self, seat: &mut Seat) -> Result<Option<Job>, BookFault>
        ensures gives { Unless BookFault.OutOfMemory result (GivesStart self.old.book.history result self.new.book.history) }
        ensures legal { Legal self.old.book.history.opening self.old.book.history.past }
        ensures records { IfOk result (λ given. IfSome given (λ job. RecordsAct self.old seat.old (Act.Start job.task.number job.task.name) self.new seat.new)) }
        ensures tracks { IfOk result (λ given. HandsOutTrack given self.old.book.tracks self.new.book.tracks) }
        ensures none { IfOk result (λ given. IfNone given ((self.new ≡ self.old) × (seat.new ≡ seat.old))) }
        ensures refuses { OnErr result ((self.new ≡ self.old) × (seat.new ≡ seat.old)) }
    {
        let open = seat.open_jobs.len();
        let outstanding = self.book.outstanding_count();
        // For the start, for the end of its job, and for the ends of the other jobs.
        reserve_many_notes_and_acts(&mut self.notes, outstanding + 2, &mut seat.own, open + 2)?;
        seat.open_jobs.reserve(1)?;
        let act = self.next_start_act_if_script_waits()?;
        let Some(job) = self.book.start()? else {
            return Ok(None);
        };
        self.book.law_invariant();
        if let Some(act) = act {
            push_noted_seat_number(&mut self.notes, seat.number);
            push_act(&mut seat.own, act);
            seat.open_jobs.push_reserved(job.number());
        }
        Ok(Some(job))
    }

    /// Takes the result of an outstanding job.
    ///
    /// # Errors
    /// `NoSuchJob`, else `OutOfMemory` where another seat started the job, else `Foreign`.
    pub fn finish(&mut self, seat: &mut Seat, done: &Done) -> Result<Ruling, FinishFault>
        ensures gives { Unless FinishFault.OutOfMemory result (GivesFinish self.old.book.history done.now result self.new.book.history) }
        ensures legal { Legal self.old.book.history.opening self.old.book.history.past }
        ensures records { IfOk result (λ ruling. RecordsAct self.old seat.old (Act.Finish done.now.number ruling) self.new seat.new) }
        ensures tracks { IfOk result (λ ruling. CachesTrack ruling (present_text self.old.book.history.past done.now.name) done.now self.old.book.tracks self.new.book.tracks) }
        ensures none { (result ≡ Err FinishFault.NoSuchJob) ↔ (job self.old.book.history.opening self.old.book.history.past done.now.number ≡ None) }
        ensures room { is_unended seat.old.own done.now.number ≡ true → result ≢ Err FinishFault.OutOfMemory }
        ensures refuses { OnErr result ((self.new ≡ self.old) × (seat.new ≡ seat.old)) }
    {
        if !self.book.is_outstanding(done.number()) {
            return Err(FinishFault::NoSuchJob);
        }
        reserve_end_act_if_job_not_open_at_seat(
            &mut seat.own,
            seat.open_jobs.as_slice(),
            done.number(),
        )?;
        let ruling = self.book.finish(done)?;
        self.book.law_invariant();
        push_noted_seat_number(&mut self.notes, seat.number);
        push_act(&mut seat.own, Act::Finish(done.number(), ruling));
        remove_open_job_number(&mut seat.open_jobs, done.number());
        Ok(ruling)
    }

    /// Hands out a track that is kept no longer, as `Book::take_evicted_track_if_any` does. No clause says which it is,
    /// or whether there is one: the value of a `Held` has the tracks that are kept, and not those that are to be freed.
    pub fn take_evicted_track_if_any(&mut self) -> Option<Track>
        ensures { self.new ≡ self.old }
    {
        self.book.take_evicted_track_if_any()
    }

    /// Gives up an outstanding job.
    ///
    /// # Errors
    /// `NoSuchJob`, else `OutOfMemory` where another seat started the job.
    pub fn abandon(&mut self, seat: &mut Seat, number: u64) -> Result<(), FinishFault>
        ensures gives { Unless FinishFault.OutOfMemory result (GivesAbandon self.old.book.history number result self.new.book.history) }
        ensures legal { Legal self.old.book.history.opening self.old.book.history.past }
        ensures records { OnOk result (RecordsAct self.old seat.old (Act.Abandon number) self.new seat.new) }
        ensures tracks { self.new.book.tracks ≡ self.old.book.tracks }
        ensures none { (result ≡ Err FinishFault.NoSuchJob) ↔ (job self.old.book.history.opening self.old.book.history.past number ≡ None) }
        ensures room { is_unended seat.old.own number ≡ true → result ≢ Err FinishFault.OutOfMemory }
        ensures refuses { OnErr result ((self.new ≡ self.old) × (seat.new ≡ seat.old)) }
    {
        if !self.book.is_outstanding(number) {
            return Err(FinishFault::NoSuchJob);
        }
        reserve_end_act_if_job_not_open_at_seat(&mut seat.own, seat.open_jobs.as_slice(), number)?;
        self.book.abandon(number)?;
        self.book.law_invariant();
        push_noted_seat_number(&mut self.notes, seat.number);
        push_act(&mut seat.own, Act::Abandon(number));
        remove_open_job_number(&mut seat.open_jobs, number);
        Ok(())
    }

    /// The report as it stands, of a history that agrees with the seat.
    ///
    /// # Errors
    /// `Differs` where the seat's acts aren't those noted with its number, or it was shown a longer history; else
    /// `OutOfMemory`.
    pub fn show(&self, seat: &mut Seat) -> Result<Report, ShowFault>
        ensures report { IfOk result (λ report. report ≡ shown self.now.book.history.opening self.now.book.history.past) }
        ensures shown_from { IfOk result (λ report. IsShownFrom self.now seat.old report seat.new) }
        ensures is_shown { IfOk result (λ report. IsShown seat.old report seat.new) }
        ensures differs { (result ≡ Err ShowFault.Differs) ↔ ¬ Agrees self.now seat.old }
        ensures refuses { OnErr result (seat.new ≡ seat.old) }
    {
        if !self.agrees(seat) {
            return Err(ShowFault::Differs);
        }
        let report = self.book.show()?;
        seat.longest_shown = self.notes.len();
        Ok(report)
    }

    /// Whether the acts noted with the seat's number are its own, and the history is no shorter than one of which it was
    /// shown a report.
    pub fn agrees(&self, seat: &Seat) -> bool
        ensures compared { IsTrue result ↔ Agrees self.now seat.now }
        ensures legal { Legal self.now.book.history.opening self.now.book.history.past }
        ensures noted { length self.now.notes ≡ length self.now.book.history.past }
    {
        seat.longest_shown <= self.notes.len()
            && are_seat_acts_as_noted(seat, self.notes.as_slice(), self.book.history())
    }

    /// How many rows of the report are pending.
    pub fn owed(&self) -> usize
        ensures { result ≡ owed self.now.book.history.opening self.now.book.history.past }
    {
        self.book.owed()
    }

    /// Whether a script waits for a start.
    pub fn has_waiting_script(&self) -> bool
        ensures { result ≡ is_some (next self.now.book.history.past) }
    {
        self.book.name_of_next_script_to_start().is_some()
    }
}

/// A text of these lines, and the act that adds a script of it.
fn text_and_add_act(alloc: Global, name: &Name, lines: Lines) -> Result<(Text, Act), AllocError>
    ensures text { IfOk result (λ made. made.0 ≡ lines) }
    ensures act { IfOk result (λ made. made.1 ≡ Act.Add name.now lines) }
{
    let text = Text::new(alloc, lines)?;
    let act = Act::Add(name.share()?, text.share()?);
    Ok((text, act))
}

/// The act that edits a script so.
fn edit_act(book: &Book, name: &Name, edit: &SharedEdit) -> Result<Act, AllocError>
    ensures { IfOk result (λ act. act ≡ Act.Edit name.now edit.now) }
{
    Ok(Act::Edit(book.share_stored_name_or_given(name)?, edit.share()?))
}
