//! A seat at a desk that answers commands. Each reply and each report is compared with the seat's own copy: a book in which
//! the accepted acts alone were made, so that no job is started in it.
ghost use Rattle.std.specs.Prelude.{◌≡◌, ◌∷◌, ℕ, List, [], IfOk, IfErr, IsOk, unwrap_or};
ghost use Rattle.pd_text.specs.declared.line_edit.LineEdit.{LineEdit};
ghost use Rattle.pd_book.specs.declared.act.Act.{Act};
ghost use Rattle.pd_cli.specs.BesideSteps.{Declines, FailsBeside};

use crate::desk_faults::{serve_fault_of_desk, serve_fault_of_show};
use crate::handler::CommandHandler;
use crate::local_handler::refusal_line;
use crate::report_text::render;
use crate::settle::all_pass;
use crate::verify_report::check_same_scripts_and_settings_as_own;
use pd_book::{Act, Book, BookFault, SharedEdit};
use pd_desk::Desk;
use pd_protocol::{Command, ServeFault};
use pd_seat::Seat;
use pd_settings::Value;
use pd_text::{LineEdit, Lines, Name, Text};
use std::alloc::Global;
use std::sync::Wait;

/// A seat at a desk, with its own copy.
#[derive(Drop)]
pub(crate) struct SharedHandler<'a, H> {
    /// It waits by this.
    pub rt: &'a H,
    /// The allocator.
    pub alloc: Global,
    /// The desk.
    pub desk: &'a Desk,
    /// The seat.
    pub seat: &'a mut Seat,
    /// The own copy.
    pub own: Book,
}

impl<'a, H: Wait> CommandHandler for SharedHandler<'a, H> {
    ghost use Rattle.pd_cli.specs.Output.{all_pass};
    ghost use Rattle.pd_cli.specs.Beside.{from_scratch, MayPrint};
    ghost use Rattle.pd_cli.specs.BesideSteps.{FailsBeside};

    ghost is_ready = { λ _. Unit {0} };

    ghost prints = { λ old command octets new. MayPrint old.own.history command octets new.own.history };

    ghost fails = { λ fault old command new. FailsBeside fault command };

    ghost passes = { λ at. all_pass (from_scratch at.own.history) };

    fn alloc(&self) -> Global {
        self.alloc
    }

    fn add(&mut self, name: Name, text: Option<Lines>) -> Result<Vec<u8>, ServeFault> {
        let Some(text) = text else {
            return Ok(refusal_line(self.alloc, BookFault::TooLarge)?);
        };
        match self.desk.add(self.rt, self.seat, name.share()?, text) {
            Ok(()) => {
                let text = last_added_text_or_fault(self.seat)?;
                empty_reply_if_own_result_ok(self.alloc, self.own.add_with_shared_text(name, text))
            }
            Err(fault) => refusal_line_if_own_copy_agrees(
                self.alloc,
                fault,
                self.own.refusal_if_name_bad_taken_or_too_many(&name),
            ),
        }
    }

    fn edit(&mut self, name: &Name, edit: Option<LineEdit>) -> Result<Vec<u8>, ServeFault> {
        let Some(edit) = edit else {
            return Ok(refusal_line(self.alloc, BookFault::TooLarge)?);
        };
        match self.desk.edit(self.rt, self.seat, name, &edit) {
            Ok(()) => {
                let (name, edit) = last_edit_with_name_or_fault(self.seat)?;
                empty_reply_if_own_result_ok(
                    self.alloc,
                    self.own.edit_with_shared_edit(&name, edit),
                )
            }
            Err(fault) => refusal_line_if_own_copy_agrees(
                self.alloc,
                fault,
                self.own.line_edit_refusal(name, &edit),
            ),
        }
    }

    fn remove(&mut self, name: &Name) -> Result<Vec<u8>, ServeFault> {
        match self.desk.remove(self.rt, self.seat, name) {
            Ok(()) => empty_reply_if_own_result_ok(self.alloc, self.own.remove(name)),
            Err(fault) => refusal_line_if_own_copy_agrees(
                self.alloc,
                fault,
                self.own.missing_refusal(name),
            ),
        }
    }

    fn set(&mut self, key: &Name, value: Value) -> Result<Vec<u8>, ServeFault> {
        let key = key.as_slice();
        match self.desk.set(self.rt, self.seat, key, value) {
            Ok(()) => empty_reply_if_own_result_ok(self.alloc, self.own.set(key, value)),
            Err(fault) => refusal_line_if_own_copy_agrees(
                self.alloc,
                fault,
                self.own.refusal_if_key_unknown_or_value_bad(key, value),
            ),
        }
    }

    fn show(&mut self) -> Result<Vec<u8>, ServeFault> {
        let report = self
            .desk
            .show(self.rt, self.seat)
            .map_err(serve_fault_of_show)?;
        check_same_scripts_and_settings_as_own(&self.own, &report)?;
        Ok(render(self.alloc, &report)?)
    }

    fn settle(&mut self) -> Result<(Vec<u8>, bool), ServeFault> {
        let report = self
            .desk
            .settle(self.rt, self.seat)
            .map_err(serve_fault_of_desk)?;
        check_same_scripts_and_settings_as_own(&self.own, &report)?;
        let octets = render(self.alloc, &report)?;
        Ok((octets, all_pass(&report)))
    }
}

/// The text of the seat's last act, an add.
fn last_added_text_or_fault(seat: &Seat) -> Result<Text, ServeFault>
    ensures text { (name : List ℕ) → (text : List (List ℕ)) → (older : List Act) → seat.now.own ≡ Act.Add name text ∷ older → IfOk result (λ own. own ≡ text) }
    ensures only { (command : Command) → IfErr result (λ fault. FailsBeside fault command) }
{
    match seat.acts().last() {
        Some(Act::Add(_, text)) => Ok(text.share()?),
        _ => Err(ServeFault::Differs),
    }
}

/// The name and the edit of the seat's last act, an edit.
fn last_edit_with_name_or_fault(seat: &Seat) -> Result<(Name, SharedEdit), ServeFault>
    ensures edit { (name : List ℕ) → (edit : LineEdit) → (older : List Act) → seat.now.own ≡ Act.Edit name edit ∷ older → IfOk result (λ own. (own.0 ≡ name) × (own.1 ≡ edit)) }
    ensures only { (command : Command) → IfErr result (λ fault. FailsBeside fault command) }
{
    match seat.acts().last() {
        Some(Act::Edit(name, edit)) => Ok((name.share()?, edit.share()?)),
        _ => Err(ServeFault::Differs),
    }
}

/// The reply to an act that the desk accepted: nothing, where the own copy accepts it too.
fn empty_reply_if_own_result_ok(
    alloc: Global,
    own: Result<(), BookFault>,
) -> Result<Vec<u8>, ServeFault>
    ensures none { IfOk result (λ octets. octets.items ≡ []) }
    ensures too { IfOk result (λ _. IsOk own) }
    ensures only { (command : Command) → IfErr result (λ fault. FailsBeside fault command) }
{
    match own {
        Ok(()) => Ok(Vec::new(alloc)),
        Err(BookFault::OutOfMemory) => Err(ServeFault::OutOfMemory),
        Err(_) => Err(ServeFault::Differs),
    }
}

/// The line of an act that the desk refused, where the own copy refuses it for the same reason, or the history of the desk
/// is full and the own copy has no reason.
fn refusal_line_if_own_copy_agrees(
    alloc: Global,
    fault: BookFault,
    own: Option<BookFault>,
) -> Result<Vec<u8>, ServeFault>
    ensures line { IfOk result (λ octets. Declines own octets.items) }
    ensures only { (command : Command) → IfErr result (λ fault. FailsBeside fault command) }
{
    if fault == BookFault::OutOfMemory {
        return Err(ServeFault::OutOfMemory);
    }
    if fault != own.unwrap_or(BookFault::HistoryFull) {
        return Err(ServeFault::Differs);
    }
    Ok(refusal_line(alloc, fault)?)
}
