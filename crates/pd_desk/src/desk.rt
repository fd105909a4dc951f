//! The desk: a book under one lock, at which several callers have seats; `show` needs a seat that agrees with the history.
ghost use Rattle.std.specs.Prelude.{◌≡◌, ◌≢◌, ◌≤◌, true, IfOk, IfErr, IfSome, IfNone, OnOk, OnErr, IsSomeAnd, Err};
ghost use Rattle.pd_settings.specs.Keys.{key_named};
ghost use Rattle.pd_book.specs.Replies.{GivesAdd, GivesEdit, GivesRemove, GivesSet, GivesStart, GivesFinish, GivesAbandon};
ghost use Rattle.pd_seat.specs.Seats.{new_seats, with_act, is_unended, Unless, IsShown};
ghost use Rattle.pd_seat.specs.Close.{RefusesCloseAt};
ghost use Rattle.pd_desk.specs.Desk.{AfterSome, IsClosed, IsHandedOut};
ghost use Rattle.pd_desk.specs.Internal.{Compared};

use crate::locked::Locked;
use crate::worker_counts::WorkerCounts;
use pd_book::{Act, Book, BookFault, Done, FinishFault, Job, Report, Ruling};
use pd_seat::{CloseFault, Held, Seat, ShowFault};
use pd_settings::{Settings, Value};
use pd_text::{LineEdit, Lines, Name};
use std::alloc::{AllocError, Global};
use std::sync::{Condvar, Mutex, Wait};

/// A book under one lock. The order in which the lock is taken is the order of the acts.
#[derive(Drop)]
pub struct Desk {
    /// The book and the workers, under the lock.
    pub(crate) locked: Mutex<Locked>,
    /// Wakes those that wait for a job or for a verdict.
    pub(crate) changed: Condvar,
}

impl Desk {
    /// A desk for so many workers, with a book without acts, which keeps 1 to 1,024 tracks, and its seats. No clause speaks
    /// of the book, its settings and tracks, or of the workers: all of them are under the lock, and of a lock that is
    /// made nothing is known but its type's facts.
    ///
    /// # Errors
    /// Out of memory.
    pub fn open(
        alloc: Global,
        cache: usize,
        settings: Settings,
        workers: usize,
        seats: usize,
    ) -> Result<(Desk, Vec<Seat>), AllocError>
        requires some { 1 ≤ cache }
        requires few { cache ≤ 1024 }
        requires seats { 1 ≤ seats }
        ensures { IfOk result (λ opened. opened.1.items ≡ new_seats 0 seats) }
    {
        let (held, made) = Held::new(alloc, cache, settings, seats)?;
        let locked = Locked {
            held,
            worker_counts: WorkerCounts::new(workers),
        };
        let desk = Desk {
            locked: Mutex::new(locked),
            changed: Condvar::new(),
        };
        Ok((desk, made))
    }

    /// Adds a script after the others.
    ///
    /// # Errors
    /// Those of `Held::add`.
    pub fn add<R: Wait>(
        &self,
        rt: &R,
        seat: &mut Seat,
        name: Name,
        lines: Lines,
    ) -> Result<(), BookFault>
        ensures gives { Unless BookFault.OutOfMemory result (AfterSome (λ before after. GivesAdd before name lines result after)) }
        ensures records { OnOk result (seat.new ≡ with_act seat.old (Act.Add name lines)) }
        ensures refuses { OnErr result (seat.new ≡ seat.old) }
    {
        let reply = self.locked.lock(rt).held.add(seat, name, lines);
        self.changed.notify_all();
        reply
    }

    /// Edits the text of a script.
    ///
    /// # Errors
    /// Those of `Held::edit`.
    pub fn edit<R: Wait>(
        &self,
        rt: &R,
        seat: &mut Seat,
        name: &Name,
        edit: &LineEdit,
    ) -> Result<(), BookFault>
        ensures gives { Unless BookFault.OutOfMemory result (AfterSome (λ before after. GivesEdit before name.now edit.now result after)) }
        ensures records { OnOk result (seat.new ≡ with_act seat.old (Act.Edit name.now edit.now)) }
        ensures refuses { OnErr result (seat.new ≡ seat.old) }
    {
        let reply = self.locked.lock(rt).held.edit(seat, name, edit);
        self.changed.notify_all();
        reply
    }

    /// Takes a script out. Its track is freed outside the lock.
    ///
    /// # Errors
    /// Those of `Held::remove`.
    pub fn remove<R: Wait>(&self, rt: &R, seat: &mut Seat, name: &Name) -> Result<(), BookFault>
        ensures gives { Unless BookFault.OutOfMemory result (AfterSome (λ before after. GivesRemove before name.now result after)) }
        ensures records { OnOk result (seat.new ≡ with_act seat.old (Act.Remove name.now)) }
        ensures refuses { OnErr result (seat.new ≡ seat.old) }
    {
        let mut locked = self.locked.lock(rt);
        let reply = locked.held.remove(seat, name);
        let evicted = locked.held.take_evicted_track_if_any();
        drop(locked);
        self.changed.notify_all();
        drop(evicted);
        reply
    }

    /// Sets a setting.
    ///
    /// # Errors
    /// Those of `Held::set`.
    pub fn set<R: Wait>(
        &self,
        rt: &R,
        seat: &mut Seat,
        key: &[u8],
        value: Value,
    ) -> Result<(), BookFault>
        ensures gives { Unless BookFault.OutOfMemory result (AfterSome (λ before after. GivesSet before key.now value result after)) }
        ensures records { OnOk result (IsSomeAnd (key_named key.now) (λ key. seat.new ≡ with_act seat.old (Act.Set key value))) }
        ensures refuses { OnErr result (seat.new ≡ seat.old) }
    {
        let reply = self.locked.lock(rt).held.set(seat, key, value);
        self.changed.notify_all();
        reply
    }

    /// Hands out the job of the first script that waits; `None` where none waits. It wakes nobody, since nobody waits for a
    /// start.
    ///
    /// # Errors
    /// Those of `Held::start`.
    pub fn start<R: Wait>(&self, rt: &R, seat: &mut Seat) -> Result<Option<Job>, BookFault>
        ensures gives { Unless BookFault.OutOfMemory result (AfterSome (λ before after. GivesStart before result after)) }
        ensures records { IfOk result (λ given. IfSome given (λ job. seat.new ≡ with_act seat.old (Act.Start job.task.number job.task.name))) }
        ensures none { IfOk result (λ given. IfNone given (seat.new ≡ seat.old)) }
        ensures given { IfOk result (λ given. IfSome given (λ job. IsHandedOut job.task)) }
        ensures refuses { OnErr result (seat.new ≡ seat.old) }
    {
        self.locked.lock(rt).held.start(seat)
    }

    /// Takes the result of an outstanding job. It wakes the others where no verdict is awaited any more, since it gives no
    /// worker anything to do. A track that is kept no longer is freed outside the lock.
    ///
    /// # Errors
    /// Those of `Held::finish`.
    pub fn finish<R: Wait>(
        &self,
        rt: &R,
        seat: &mut Seat,
        done: &Done,
    ) -> Result<Ruling, FinishFault>
        ensures gives { Unless FinishFault.OutOfMemory result (AfterSome (λ before after. GivesFinish before done.now result after)) }
        ensures records { IfOk result (λ ruling. seat.new ≡ with_act seat.old (Act.Finish done.now.number ruling)) }
        ensures room { is_unended seat.old.own done.now.number ≡ true → result ≢ Err FinishFault.OutOfMemory }
        ensures refuses { OnErr result (seat.new ≡ seat.old) }
    {
        let (reply, _) = self.finish_and_whether_ok_or_seat_agrees(rt, seat, done);
        reply
    }

    /// Takes the result of an outstanding job; and whether the history agrees with the seat, as `Locked::finish` does.
    pub(crate) fn finish_and_whether_ok_or_seat_agrees<R: Wait>(
        &self,
        rt: &R,
        seat: &mut Seat,
        done: &Done,
    ) -> (Result<Ruling, FinishFault>, bool)
        ensures gives { Unless FinishFault.OutOfMemory result.0 (AfterSome (λ before after. GivesFinish before done.now result.0 after)) }
        ensures compared { Compared seat.old result.0 result.1 (λ before after. GivesFinish before done.now result.0 after) }
        ensures records { IfOk result.0 (λ ruling. seat.new ≡ with_act seat.old (Act.Finish done.now.number ruling)) }
        ensures room { is_unended seat.old.own done.now.number ≡ true → result.0 ≢ Err FinishFault.OutOfMemory }
        ensures refuses { OnErr result.0 (seat.new ≡ seat.old) }
    {
        let mut locked = self.locked.lock(rt);
        let ended = locked.finish_and_whether_ok_or_seat_agrees(seat, done);
        let evicted = locked.held.take_evicted_track_if_any();
        let is_verdict_awaited = locked.has_owed_verdict_and_remaining_worker();
        drop(locked);
        if !is_verdict_awaited {
            self.changed.notify_all();
        }
        drop(evicted);
        ended
    }

    /// Gives up an outstanding job.
    ///
    /// # Errors
    /// Those of `Held::abandon`.
    pub fn abandon<R: Wait>(&self, rt: &R, seat: &mut Seat, number: u64) -> Result<(), FinishFault>
        ensures gives { Unless FinishFault.OutOfMemory result (AfterSome (λ before after. GivesAbandon before number result after)) }
        ensures records { OnOk result (seat.new ≡ with_act seat.old (Act.Abandon number)) }
        ensures room { is_unended seat.old.own number ≡ true → result ≢ Err FinishFault.OutOfMemory }
        ensures refuses { OnErr result (seat.new ≡ seat.old) }
    {
        let (reply, _) = self.abandon_and_whether_ok_or_seat_agrees(rt, seat, number);
        reply
    }

    /// Gives up an outstanding job; and whether the history agrees with the seat, as `Locked::finish` does.
    pub(crate) fn abandon_and_whether_ok_or_seat_agrees<R: Wait>(
        &self,
        rt: &R,
        seat: &mut Seat,
        number: u64,
    ) -> (Result<(), FinishFault>, bool)
        ensures gives { Unless FinishFault.OutOfMemory result.0 (AfterSome (λ before after. GivesAbandon before number result.0 after)) }
        ensures compared { Compared seat.old result.0 result.1 (λ before after. GivesAbandon before number result.0 after) }
        ensures records { OnOk result.0 (seat.new ≡ with_act seat.old (Act.Abandon number)) }
        ensures room { is_unended seat.old.own number ≡ true → result.0 ≢ Err FinishFault.OutOfMemory }
        ensures refuses { OnErr result.0 (seat.new ≡ seat.old) }
    {
        let ended = self
            .locked
            .lock(rt)
            .abandon_and_whether_ok_or_seat_agrees(seat, number);
        self.changed.notify_all();
        ended
    }

    /// The report as it stands, of a history that agrees with the seat.
    ///
    /// # Errors
    /// `Differs` where the seat's acts aren't those noted with its number, or the seat was shown a longer history; else
    /// `OutOfMemory`.
    pub fn show<R: Wait>(&self, rt: &R, seat: &mut Seat) -> Result<Report, ShowFault>
        ensures is_shown { IfOk result (λ report. IsShown seat.old report seat.new) }
        ensures refuses { OnErr result (seat.new ≡ seat.old) }
    {
        self.locked.lock(rt).held.show(seat)
    }

    /// The book, in which each seat's acts stand once, in its order, and no others. It takes no memory.
    ///
    /// # Errors
    /// `MissingSeat`, which hands back all, else `Differs`, which hands back the book.
    pub fn close(self, seats: Vec<Seat>) -> Result<Book, CloseFault<Desk>>
        ensures ok { IfOk result (IsClosed seats.items) }
        ensures err { IfErr result (RefusesCloseAt seats.items) }
    {
        let Desk { locked, changed } = self;
        let Locked {
            held,
            worker_counts,
        } = locked.into_inner();
        match held.close(seats) {
            Ok(book) => Ok(book),
            Err(CloseFault::MissingSeat(held, seats)) => {
                let desk = Desk {
                    locked: Mutex::new(Locked {
                        held,
                        worker_counts,
                    }),
                    changed,
                };
                Err(CloseFault::MissingSeat(desk, seats))
            }
            Err(CloseFault::Differs(book)) => Err(CloseFault::Differs(book)),
        }
    }
}
