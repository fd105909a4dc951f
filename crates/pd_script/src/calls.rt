//! System calls as a script writes them.
ghost use Rattle.std.specs.Prelude.{◌≡◌, [], ◌∷◌, ◌++◌, length, IfOk, OnOk};

use smallvec::SmallVec;
use std::alloc::{AllocError, Global};
use std::marker::Model;

/// A system call with its arguments and the result that the script expects.
#[derive(Drop)]
pub struct Call {
    /// The name of the call.
    pub function: Function,
    /// The result that the script expects.
    pub result: ExpectedResult,
    /// Its arguments.
    pub arguments: Arguments,
}

/// The name of a call.
#[derive(Clone, Copy)]
pub enum Function {
    Socket,
    Bind,
    Listen,
    Accept,
    Setsockopt,
    Fcntl,
    Write,
    Close,
    /// Any other word.
    Unknown,
}

/// The arguments of a call, in order; up to three need no allocation.
#[derive(Drop)]
pub struct Arguments {
    /// The arguments in order.
    arguments: SmallVec<Argument, 3>,
}

impl Model for Arguments {
    ghost use Rattle.std.specs.Prelude.{List};
    ghost use Rattle.pd_script.specs.declared.calls.Argument.{Argument};

    ghost Value = { List Argument };

    ghost view = { λ l. l.arguments.items };
}

/// An argument of a call.
#[derive(Clone, Copy, Default)]
pub enum Argument {
    /// A whole number in digits; one above the greatest `u64` counts as that.
    Int(u64),
    /// A word.
    Constant(Constant),
    /// A whole number in digits between `[` and `]`, as `Int`.
    Element(u64),
    /// Anything else.
    #[default]
    Other,
}

/// A word that stands as an argument.
#[derive(Clone, Copy)]
pub enum Constant {
    SockStream,
    IpprotoTcp,
    SolSocket,
    SolTcp,
    SoReuseaddr,
    TcpNodelay,
    FSetfl,
    /// Any other word.
    Unknown,
}

/// The result that a script expects of a call, its number at most 4,294,967,295.
#[derive(Clone, Copy)]
pub enum ExpectedResult {
    Int(u32),
    Hex(u32),
    /// `-` and a number, with the name of an error if one is written.
    Negative(u32, Option<ErrorName>),
}

/// The name of an error.
#[derive(Clone, Copy)]
pub enum ErrorName {
    Ebadf,
    Einval,
    Eagain,
    Epipe,
    /// Any other word.
    Unknown,
}

impl Call {
    /// The same call once more.
    ///
    /// # Errors
    /// `AllocError` where a growth is refused.
    pub fn copy(&self) -> Result<Call, AllocError>
        ensures { IfOk result (λ copy. copy ≡ self.now) }
    {
        Ok(Call {
            function: self.function,
            arguments: self.arguments.copy()?,
            result: self.result,
        })
    }
}

impl Arguments {
    /// No arguments.
    pub fn new(alloc: Global) -> Arguments
        ensures { result ≡ [] }
    {
        Arguments {
            arguments: SmallVec::new(alloc),
        }
    }

    /// Puts an argument after the others.
    ///
    /// # Errors
    /// `AllocError` where a growth is refused.
    #[inline(always)]
    pub fn push(&mut self, argument: Argument) -> Result<(), AllocError>
        ensures { OnOk result (self.new ≡ self.old ++ argument ∷ []) }
    {
        self.arguments.reserve(1)?;
        self.arguments.push_reserved(argument);
        Ok(())
    }

    /// How many they are.
    pub fn len(&self) -> usize
        ensures { result ≡ length self.now }
    {
        self.arguments.len()
    }

    /// The arguments in order.
    pub fn as_slice(&self) -> &[Argument]
        ensures { result.now ≡ self.now }
    {
        self.arguments.as_slice()
    }

    /// The same arguments once more.
    ///
    /// # Errors
    /// `AllocError` where a growth is refused.
    pub fn copy(&self) -> Result<Arguments, AllocError>
        ensures { IfOk result (λ copy. copy ≡ self.now) }
    {
        Ok(Arguments {
            arguments: self.arguments.clone()?,
        })
    }
}
