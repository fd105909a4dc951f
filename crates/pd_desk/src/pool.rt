//! Workers in threads of their own.
ghost use Rattle.std.specs.Prelude.{◌≡◌};

use crate::desk::Desk;
use crate::faults::DeskFault;
use crate::gate::Gate;
use pd_run::Plain;
use pd_seat::Seat;
use std::alloc::Global;
use std::sync::Wait;
use std::thread;
use std::thread::Threads;

/// Work for a thread. A scope's closure may hold a `&mut` only inside a value of a type parameter.
trait ThreadTask {
    fn run(self) -> Result<(), DeskFault>;
}

/// A worker at its seat.
#[derive(Drop)]
struct Worker<'a, 'b, R, G> {
    /// It waits by this.
    rt: &'a R,
    /// The allocator.
    alloc: Global,
    /// The desk that it works at.
    desk: &'a Desk,
    /// It passes this before and after each of its jobs.
    gate: &'a G,
    /// Its seat.
    seat: &'b mut Seat,
}

impl<'a, 'b, R: Wait, G: Gate> ThreadTask for Worker<'a, 'b, R, G> {
    fn run(self) -> Result<(), DeskFault> {
        let Worker {
            rt,
            alloc,
            desk,
            gate,
            seat,
        } = self;
        desk.work(rt, alloc, seat, &mut Plain::new(), gate)
    }
}

impl Desk {
    /// Runs a worker with the product's stepper on each of these seats, each in a thread of its own, until all have left.
    /// One that can't be started counts as one that left out of memory.
    ///
    /// # Errors
    /// Of those with which workers left, that of the first in the order of the seats.
    pub fn pool<'x, R: Threads + Wait + Sync, G: Gate + Sync>(
        &'x self,
        rt: &'x R,
        alloc: Global,
        seats: &mut [Seat],
        gate: &'x G,
    ) -> Result<(), DeskFault> {
        let count = seats.len();
        let Ok(mut workers) = Vec::with_capacity(alloc, count) else {
            return self.note_unstarted_workers_and_return_error(rt, count);
        };
        let each = seats.iter_mut();
        for seat in each {
            let worker = Worker {
                rt,
                alloc,
                desk: self,
                gate,
                seat,
            };
            if workers.push(worker).is_err() {
                return self.note_unstarted_workers_and_return_error(rt, count);
            }
        }
        self.run_threads_and_return_first_fault(rt, alloc, workers)
    }

    /// Counts so many workers as ones that can't be started.
    fn note_unstarted_workers_and_return_error<R: Wait>(
        &self,
        rt: &R,
        count: usize,
    ) -> Result<(), DeskFault> {
        for _ in 0..count {
            self.note_unstarted_worker_as_left(rt);
        }
        Err(DeskFault::OutOfMemory)
    }

    /// Counts a worker that can't be started as one that left.
    fn note_unstarted_worker_as_left<R: Wait>(&self, rt: &R) {
        let mut locked = self.locked.lock(rt);
        if locked.worker_counts.enter_unless_all_entered() {
            locked.worker_counts.leave();
        }
        drop(locked);
        self.changed.notify_all();
    }

    /// Runs each task in a thread of its own, and gives the first fault in their order.
    fn run_threads_and_return_first_fault<R: Threads + Wait, T: ThreadTask + Send + Drop>(
        &self,
        rt: &R,
        alloc: Global,
        tasks: Vec<T>,
    ) -> Result<(), DeskFault> {
        let count = tasks.len();
        thread::scope(thread::scope_env(), rt, |scope| {
            let Ok(mut handles) = Vec::with_capacity(alloc, count) else {
                return self.note_unstarted_workers_and_return_error(rt, count);
            };
            for task in tasks {
                let started = scope.spawn(move || task.run());
                if started.is_err() {
                    self.note_unstarted_worker_as_left(rt);
                }
                // The list was made with room for all of them.
                let _ = handles.push(started.ok());
            }
            let mut answer = Ok(());
            for handle in handles {
                let left = match handle {
                    Some(handle) => handle.join(rt),
                    None => Err(DeskFault::OutOfMemory),
                };
                answer = answer.and(left);
            }
            answer
        })
    }
}
