//! Settles or serves at one seat of a desk while a pool of workers runs at the others, and gives how the pool ended.
use crate::callers::{DeskCaller, DeskCalls, pool, write_shown};
use crate::progress::{SLEEP, await_count, yield_turns};
use crate::schedules::SlowReader;
use crate::serving::ServedOutput;
use pd_desk::{Desk, Gate};
use pd_seat::Seat;
use std::alloc::Global;
use std::sync::atomic::{AtomicU64, Ordering};
use std::sync::{Mutex, Wait};
use std::thread;
use std::thread::Threads;
use test_support::AnswerText;

/// A settling, with its answer; or commands that are served, by a reader that delays by a seed.
#[derive(Clone, Copy)]
pub enum DuringPool<'a> {
    Settle(&'a Mutex<AnswerText>),
    Serve(&'a Mutex<ServedOutput>, &'a str, u64),
}

/// Does that at the last of these seats while a worker runs at each other one, then shuts the desk, and gives how the pool
/// ended.
pub fn run_during_pool<R: Threads + Wait + Sync>(
    rt: &R,
    alloc: Global,
    desk: &Desk,
    gate: &(impl Gate + Sync),
    seats: &mut [Seat],
    during_pool: DuringPool<'_>,
) -> &'static str {
    let workers = seats.len().saturating_sub(1).max(1);
    let begun = AtomicU64::new(0);
    let left = Mutex::new("");
    thread::for_each_chunk_mut(
        rt,
        seats,
        workers,
        &|first, seats| {
            if first == 0 {
                during_pool.note_begun_and_let_settler_sleep(&begun);
                *left.lock(rt) = pool(rt, alloc, desk, gate, seats);
            } else {
                during_pool.carry_out_and_shut_desk(rt, alloc, desk, seats, &begun);
            }
        },
    );
    left.into_inner()
}

impl<'a> DuringPool<'a> {
    /// Notes that there is a thread for the workers. Those beside whom it settles begin once it had turns to fall asleep.
    fn note_begun_and_let_settler_sleep(self, begun: &AtomicU64) {
        begun.store(1, Ordering::SeqCst);
        if let DuringPool::Settle(_) = self {
            let _ = await_count(begun, 2);
            yield_turns(SLEEP);
        }
    }

    /// Does it once there is a thread for the workers, which there isn't where none can be made, and shuts the desk.
    fn carry_out_and_shut_desk<R: Wait>(
        self,
        rt: &R,
        alloc: Global,
        desk: &Desk,
        seats: &mut [Seat],
        begun: &AtomicU64,
    ) {
        if await_count(begun, 1)
            && let Some(seat) = seats.first_mut()
        {
            begun.store(2, Ordering::SeqCst);
            self.carry_out_at(rt, alloc, desk, seat);
        } else if let DuringPool::Settle(out) = self {
            out.lock(rt).is_whole = false;
        }
        desk.shut(rt);
    }

    fn carry_out_at<'x, R: Wait>(self, rt: &'x R, alloc: Global, desk: &'x Desk, seat: &mut Seat) {
        match self {
            DuringPool::Settle(out) => {
                write_shown(&mut out.lock(rt), DeskCaller { rt, desk, seat }.settle());
            }
            DuringPool::Serve(served, written, seed) => {
                let mut reader = SlowReader::new(written, seed);
                served
                    .lock(rt)
                    .serve_at_seat(rt, alloc, desk, seat, &mut reader);
            }
        }
    }
}
