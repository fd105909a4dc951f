//! Handlers of commands: a book, or a seat at a desk.
use pd_protocol::{Command, ServeFault};
use pd_settings::Value;
use pd_text::{LineEdit, Lines, Name};
use std::alloc::Global;

/// Answers commands, one after another: each call does one and gives what it prints.
pub(crate) trait CommandHandler {
    ghost use Rattle.std.specs.Prelude.{◌≡◌, ℕ, Bool, List, IfOk, IfErr};
    ghost use Rattle.pd_protocol.specs.declared.command.Command.{Command};
    ghost use Rattle.pd_protocol.specs.declared.faults.ServeFault.{ServeFault};

    /// It may be given a command.
    ghost is_ready: { Self → Type 0 };

    /// The octets that a command may print, and the state after it.
    ghost prints: { Self → Command → List ℕ → Self → Type 0 };

    /// Why a command may have no reply, and how it stands then.
    ghost fails: { ServeFault → Self → Command → Self → Type 0 };

    /// Each row of the report passes that a settle has printed.
    ghost passes: { Self → Bool };

    /// The allocator.
    fn alloc(&self) -> Global;

    /// Adds a script.
    fn add(&mut self, name: Name, text: Option<Lines>) -> Result<Vec<u8>, ServeFault>
        requires { is_ready self.old }
        ensures printed { IfOk result (λ octets. prints self.old (Command.Add name text) octets.items self.new) }
        ensures ready { IfOk result (λ _. is_ready self.new) }
        ensures failed { IfErr result (λ fault. fails fault self.old (Command.Add name text) self.new) };

    /// Edits a script.
    fn edit(&mut self, name: &Name, edit: Option<LineEdit>) -> Result<Vec<u8>, ServeFault>
        requires { is_ready self.old }
        ensures printed { IfOk result (λ octets. prints self.old (Command.Edit name.now edit) octets.items self.new) }
        ensures ready { IfOk result (λ _. is_ready self.new) }
        ensures failed { IfErr result (λ fault. fails fault self.old (Command.Edit name.now edit) self.new) };

    /// Removes a script.
    fn remove(&mut self, name: &Name) -> Result<Vec<u8>, ServeFault>
        requires { is_ready self.old }
        ensures printed { IfOk result (λ octets. prints self.old (Command.Remove name.now) octets.items self.new) }
        ensures ready { IfOk result (λ _. is_ready self.new) }
        ensures failed { IfErr result (λ fault. fails fault self.old (Command.Remove name.now) self.new) };

    /// Sets a setting.
    fn set(&mut self, key: &Name, value: Value) -> Result<Vec<u8>, ServeFault>
        requires { is_ready self.old }
        ensures printed { IfOk result (λ octets. prints self.old (Command.Set key.now value) octets.items self.new) }
        ensures ready { IfOk result (λ _. is_ready self.new) }
        ensures failed { IfErr result (λ fault. fails fault self.old (Command.Set key.now value) self.new) };

    /// The report as it stands.
    fn show(&mut self) -> Result<Vec<u8>, ServeFault>
        requires { is_ready self.old }
        ensures printed { IfOk result (λ octets. prints self.old Command.Show octets.items self.new) }
        ensures ready { IfOk result (λ _. is_ready self.new) }
        ensures failed { IfErr result (λ fault. fails fault self.old Command.Show self.new) };

    /// The report once nothing is owed, and whether each of its rows passes.
    fn settle(&mut self) -> Result<(Vec<u8>, bool), ServeFault>
        requires { is_ready self.old }
        ensures printed { IfOk result (λ shown. prints self.old Command.Settle shown.0.items self.new) }
        ensures passed { IfOk result (λ shown. shown.1 ≡ passes self.new) }
        ensures ready { IfOk result (λ _. is_ready self.new) }
        ensures failed { IfErr result (λ fault. fails fault self.old Command.Settle self.new) };
}
