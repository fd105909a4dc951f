//! Why reading stops.
use std::alloc::AllocError;

/// Why reading stops before the end of what is read.
#[derive(Clone, Copy)]
pub enum ParseError {
    /// No script goes on with the next token.
    Syntax,
    OutOfMemory,
}

impl From<AllocError> for ParseError {
    ghost use Rattle.std.specs.Prelude.{◌≡◌};
    ghost use Rattle.pd_script.specs.declared.parse_error.ParseError.TheVariants.{OutOfMemory};

    ghost from_gives = { λ _ e. e ≡ OutOfMemory };

    fn from(_error: AllocError) -> ParseError {
        ParseError::OutOfMemory
    }
}
