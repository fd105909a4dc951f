//! A book that answers commands: a settle runs what is owed here and now.
ghost use Rattle.std.specs.Prelude.{◌≡◌, IfOk, IfErr};
ghost use Rattle.pd_cli.specs.Output.{refused};
ghost use Rattle.pd_cli.specs.Steps.{RepliesTo};

use crate::handler::CommandHandler;
use crate::observer::JobObserver;
use crate::settle::{render_report_and_whether_all_pass, settle_then_render_and_whether_all_pass};
use pd_book::{Book, BookFault, SharedEdit};
use pd_protocol::ServeFault;
use pd_settings::Value;
use pd_text::{LineEdit, Lines, Name};
use std::alloc::{AllocError, Global};

/// A book, with the observer of its jobs.
#[derive(Drop)]
pub(crate) struct LocalHandler<L> {
    /// The allocator.
    pub alloc: Global,
    /// The book.
    pub book: Book,
    /// It is given each job as it is finished.
    pub observer: L,
}

impl<L: JobObserver> CommandHandler for LocalHandler<L> {
    ghost use Rattle.std.specs.Prelude.{Ok, Err};
    ghost use Rattle.pd_cli.specs.Output.{PrintsAlone, report, all_pass};
    ghost use Rattle.pd_cli.specs.Steps.{IsQuiet, Fails};
    ghost use Rattle.pd_cli.specs.Observed.{ObservesNumbered};

    ghost is_ready = { λ at. IsQuiet at.book.history };

    ghost prints = { λ old command octets new. PrintsAlone old.book.history command octets new.book.history × ObservesNumbered {V = Unit {0}} L.observes (Ok tt) old.book.history new.book.history old.observer new.observer };

    ghost fails = { λ fault old command new. Fails fault old.book.history command × ObservesNumbered {V = Unit {0}} L.observes (Err fault) old.book.history new.book.history old.observer new.observer };

    ghost passes = { λ at. all_pass (report at.book.history) };

    fn alloc(&self) -> Global {
        self.alloc
    }

    #[tactic(auto, using(crate::proofs::Observed::act_failed))]
    fn add(&mut self, name: Name, text: Option<Lines>) -> Result<Vec<u8>, ServeFault> {
        match text {
            Some(text) => empty_reply_or_refusal_line(self.alloc, self.book.add(name, text)),
            None => empty_reply_or_refusal_line(self.alloc, Err(BookFault::TooLarge)),
        }
    }

    #[tactic(auto, using(crate::proofs::Observed::act_failed))]
    fn edit(&mut self, name: &Name, edit: Option<LineEdit>) -> Result<Vec<u8>, ServeFault> {
        match edit {
            Some(edit) => {
                let edit = SharedEdit::new(self.alloc, edit)?;
                empty_reply_or_refusal_line(self.alloc, self.book.edit_with_shared_edit(name, edit))
            }
            None => empty_reply_or_refusal_line(self.alloc, Err(BookFault::TooLarge)),
        }
    }

    #[tactic(auto, using(crate::proofs::Observed::act_failed))]
    fn remove(&mut self, name: &Name) -> Result<Vec<u8>, ServeFault> {
        empty_reply_or_refusal_line(self.alloc, self.book.remove(name))
    }

    fn set(&mut self, key: &Name, value: Value) -> Result<Vec<u8>, ServeFault> {
        empty_reply_or_refusal_line(self.alloc, self.book.set(key.as_slice(), value))
    }

    #[tactic(auto, using(crate::proofs::Observed::act_failed))]
    fn show(&mut self) -> Result<Vec<u8>, ServeFault> {
        Ok(render_report_and_whether_all_pass(self.alloc, &self.book)?.0)
    }

    fn settle(&mut self) -> Result<(Vec<u8>, bool), ServeFault> {
        settle_then_render_and_whether_all_pass(self.alloc, &mut self.book, &mut self.observer)
    }
}

/// The reply to an answer of the book: nothing, or the line of a refusal.
fn empty_reply_or_refusal_line(
    alloc: Global,
    answer: Result<(), BookFault>,
) -> Result<Vec<u8>, ServeFault>
    ensures reply_to_result { IfOk result (λ octets. RepliesTo answer octets.items) }
    ensures only { IfErr result (λ fault. fault ≡ ServeFault.OutOfMemory) }
{
    match answer {
        Ok(()) => Ok(Vec::new(alloc)),
        Err(BookFault::OutOfMemory) => Err(ServeFault::OutOfMemory),
        Err(fault) => Ok(refusal_line(alloc, fault)?),
    }
}

/// The line of a refusal.
///
/// # Errors
/// `AllocError` where a growth is refused.
pub(crate) fn refusal_line(alloc: Global, fault: BookFault) -> Result<Vec<u8>, AllocError>
    ensures { IfOk result (λ octets. octets.items ≡ refused fault) }
{
    let mut out = Vec::new(alloc);
    out.extend_from_slice(b"refused ")?;
    out.extend_from_slice(fault.number_and_name().as_bytes())?;
    out.extend_from_slice(b"\n")?;
    Ok(out)
}
