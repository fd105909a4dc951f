//! Opening a desk, and serving at a seat of it in the calling thread, with workers in threads of their own.
ghost use Rattle.std.specs.Prelude.{◌≡◌, ◌≤◌};
ghost use Rattle.pd_cli.specs.Beside.{ServesBeside};
ghost use Rattle.pd_protocol.specs.Input.{HasCause};

use crate::serve_commands::serve_seat;
use pd_desk::{Desk, Gate};
use pd_protocol::{InputStream, ServeFault};
use pd_seat::Seat;
use pd_settings::Settings;
use std::alloc::Global;
use std::io::Write;
use std::sync::Wait;
use std::thread;
use std::thread::Threads;

/// Opens a desk with these settings, and serves the commands of a reader at a seat of it, beside so many workers in threads
/// of their own; the book keeps at most `cache` tracks: 1 to 1,024. It answers when all of them have left, also where
/// serving stops at a fault.
///
/// # Errors
/// Those of `serve_seat`; `OutOfMemory` where the desk can't be opened or no thread can be started.
pub fn serve<H: Threads + Wait + Sync, R: InputStream, W: Write, G: Gate + Sync>(
    rt: &H,
    alloc: Global,
    settings: Settings,
    cache: usize,
    workers: usize,
    reader: &mut R,
    writer: &mut W,
    gate: &G,
) -> Result<bool, ServeFault>
    requires workers { workers ≤ 64 }
    requires some { 1 ≤ cache }
    requires few { cache ≤ 1024 }
    ensures serves { ServesBeside result settings (R.remaining reader.old) (W.contents writer.old) (W.contents writer.new) }
    ensures cause { HasCause result (R.has_failed reader.new) (R.remaining reader.old) }
{
    let (desk, mut seats) = Desk::open(alloc, cache, settings, workers, workers + 1)?;
    let Some(mut seat) = seats.pop() else {
        return Err(ServeFault::OutOfMemory);
    };
    let task = SeatServing {
        rt,
        alloc,
        desk: &desk,
        seat: &mut seat,
        settings,
        reader: &mut *reader,
        writer: &mut *writer,
    };
    let (reader, writer, answer) = run_task_beside_workers_then_shut_desk(
        rt, alloc, &desk, gate, seats, task,
    );
    law_returned_references_are_those_lent(reader, writer);
    answer
}

/// Does nothing: its use ties references that come back to those that were lent.
fn law_returned_references_are_those_lent<R, W>(reader: &mut R, writer: &mut W)
    ensures { (reader.new ≡ reader.old) × (writer.new ≡ writer.old) }
{}

/// A task that is done with workers. A scope says nothing of the values that a closure wrote into its captures, but it
/// says what is returned, and so what this gives.
trait ScopedTask {
    type Output;

    ghost gives: { Self → Self.Output → Type 0 };

    fn run(self) -> Self::Output
        ensures { gives self result };

    /// Where no thread can be started, in its place.
    fn output_if_worker_threads_fail_to_start(self) -> Self::Output
        ensures { gives self result };
}

/// Serving at a seat.
#[derive(Drop)]
struct SeatServing<'a, H, R, W> {
    /// It waits by this.
    rt: &'a H,
    /// The allocator.
    alloc: Global,
    /// The desk.
    desk: &'a Desk,
    /// Its seat.
    seat: &'a mut Seat,
    /// The settings that the desk was opened with.
    settings: Settings,
    /// Where commands come from.
    reader: &'a mut R,
    /// Where output goes.
    writer: &'a mut W,
}

impl<'a, H: Wait, R: InputStream, W: Write> ScopedTask for SeatServing<'a, H, R, W> {
    ghost use Rattle.std.specs.Prelude.{◌≡◌};
    ghost use Rattle.pd_cli.specs.Beside.{ServesBeside};
    ghost use Rattle.pd_protocol.specs.Input.{HasCause};

    type Output = (&'a mut R, &'a mut W, Result<bool, ServeFault>);

    ghost gives = { λ s r. (r.0.ghost_name ≡ s.reader.ghost_name) × (r.1.ghost_name ≡ s.writer.ghost_name) × ServesBeside r.2 s.settings (R.remaining s.reader.now) (W.contents s.writer.now) (W.contents r.1.now) × HasCause r.2 (R.has_failed r.0.now) (R.remaining s.reader.now) };

    fn run(self) -> (&'a mut R, &'a mut W, Result<bool, ServeFault>) {
        let SeatServing {
            rt,
            alloc,
            desk,
            seat,
            settings,
            reader,
            writer,
        } = self;
        let answer = serve_seat(rt, alloc, desk, seat, settings, reader, writer);
        (reader, writer, answer)
    }

    fn output_if_worker_threads_fail_to_start(
        self,
    ) -> (&'a mut R, &'a mut W, Result<bool, ServeFault>) {
        let SeatServing { reader, writer, .. } = self;
        (reader, writer, Err(ServeFault::OutOfMemory))
    }
}

/// Runs a task beside the workers of a desk, then shuts the desk and lets them leave.
fn run_task_beside_workers_then_shut_desk<
    'x,
    H: Threads + Wait + Sync,
    G: Gate + Sync,
    T: ScopedTask<Output = A> + Drop,
    A: Drop,
>(rt: &'x H, alloc: Global, desk: &'x Desk, gate: &'x G, workers: Vec<Seat>, task: T) -> A
    ensures { T.gives task result }
{
    thread::scope(
        thread::scope_env(),
        rt,
        |scope| -> A
            ensures { T.gives task result }
        {
            let work = move || run_workers_at_seats_ignoring_faults(rt, alloc, desk, gate, workers);
            if scope.spawn(work).is_err() {
                return task.output_if_worker_threads_fail_to_start();
            }
            let answer = task.run();
            desk.shut(rt);
            answer
        },
    )
}

/// Works at all of these seats.
fn run_workers_at_seats_ignoring_faults<H: Threads + Wait + Sync, G: Gate + Sync>(
    rt: &H,
    alloc: Global,
    desk: &Desk,
    gate: &G,
    mut seats: Vec<Seat>,
) {
    let _ = desk.pool(rt, alloc, seats.as_mut_slice(), gate);
}
