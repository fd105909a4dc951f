//! The grammar of scripts: each thing with all the ways to write it.
use crate::spelling::PieceKind;
use Bound::*;
use GrammarPart::*;
use Nonterminal::*;

/// A part of a script that none, one or more tokens write.
#[derive(Clone, Copy)]
pub enum Nonterminal {
    Script,
    Header,
    Events,
    Event,
    Time,
    BlockingEnd,
    Action,
    Arriving,
    Leaving,
    Flags,
    OctetRange,
    Ack,
    Win,
    Options,
    MoreOptions,
    TcpOption,
    Blocks,
    SackBlock,
    Call,
    Arguments,
    MoreArguments,
    Argument,
    Pair,
    Inside,
    ExpectedResult,
    Note,
}

/// The condition on a number.
#[derive(Clone, Copy)]
pub enum Bound {
    Free,
    /// The first of a range.
    First,
    /// The second, which is no less.
    Second,
    /// The length of a range.
    Length,
}

/// A part of the grammar: the beginning of a way, all of one name, or what one token has to be.
#[derive(Clone, Copy)]
pub enum GrammarPart {
    /// The parts after it, up to the next such part, are a way to write this name.
    Alternative(Nonterminal),
    Of(Nonterminal),
    /// Any token of this kind.
    ReferenceToken(PieceKind),
    Symbol(u8),
    /// This word.
    Named(&'static [u8]),
    /// A word of flags.
    Letters,
    /// The seconds of a time.
    Seconds(Bound),
    Number(Bound),
    Hexadecimal,
    /// Any token but a bracket.
    Plain,
    /// Any token but a bracket and a comma.
    Argued,
    /// A bracket that opens a pair, and one that closes it.
    Opening(u8),
    Closing(u8),
}

impl Nonterminal {
    pub fn is(self, name: Nonterminal) -> bool {
        self as u8 == name as u8
    }
}

#[rattlefmt::skip]
pub static GRAMMAR: [GrammarPart; 211] = [
    Alternative(Script), Of(Header), Of(Events),
    Alternative(Header),
    Alternative(Header), ReferenceToken(PieceKind::Opt), Of(Header),
    Alternative(Header), ReferenceToken(PieceKind::Cmd), Of(Header),
    Alternative(Events),
    Alternative(Events), Of(Event), Of(Events),
    Alternative(Event), Of(Time), Of(BlockingEnd), Of(Action),
    Alternative(Time), Symbol(b'*'),
    Alternative(Time), Seconds(First),
    Alternative(Time), Seconds(First), Symbol(b'~'), Seconds(Second),
    Alternative(Time), Symbol(b'+'), Seconds(First),
    Alternative(Time), Symbol(b'+'), Seconds(First), Symbol(b'~'), Seconds(Second),
    Alternative(Time), Symbol(b'+'), Seconds(First), Symbol(b'~'), Symbol(b'+'), Seconds(Second),
    Alternative(BlockingEnd),
    Alternative(BlockingEnd), ReferenceToken(PieceKind::Dots), Seconds(Free),
    Alternative(BlockingEnd), ReferenceToken(PieceKind::Dots), Symbol(b'+'), Seconds(Free),
    Alternative(Action), Symbol(b'<'), Of(Arriving),
    Alternative(Action), Symbol(b'>'), Of(Leaving),
    Alternative(Action), Of(Call),
    Alternative(Action), ReferenceToken(PieceKind::Cmd),
    Alternative(Action), ReferenceToken(PieceKind::Code),
    Alternative(Arriving), Of(Flags), Of(OctetRange), Of(Ack), Named(b"win"), Number(Free), Of(Options),
    Alternative(Leaving), Of(Flags), Of(OctetRange), Of(Ack), Of(Win), Of(Options),
    Alternative(Leaving), Of(Flags), Of(OctetRange), Of(Ack), Of(Win), Symbol(b'<'), ReferenceToken(PieceKind::Dots), Symbol(b'>'),
    Alternative(Flags), Letters,
    Alternative(Flags), Symbol(b'.'),
    Alternative(Flags), Letters, Symbol(b'.'),
    Alternative(Flags), Symbol(b'-'),
    Alternative(OctetRange), Number(First), Symbol(b':'), Number(Second), Symbol(b'('), Number(Length), Symbol(b')'),
    Alternative(Ack),
    Alternative(Ack), Named(b"ack"), Number(Free),
    Alternative(Win),
    Alternative(Win), Named(b"win"), Number(Free),
    Alternative(Options),
    Alternative(Options), Symbol(b'<'), Symbol(b'>'),
    Alternative(Options), Symbol(b'<'), Of(TcpOption), Of(MoreOptions), Symbol(b'>'),
    Alternative(MoreOptions),
    Alternative(MoreOptions), Symbol(b','), Of(TcpOption), Of(MoreOptions),
    Alternative(TcpOption), Named(b"mss"), Number(Free),
    Alternative(TcpOption), Named(b"wscale"), Number(Free),
    Alternative(TcpOption), Named(b"sackOK"),
    Alternative(TcpOption), Named(b"nop"),
    Alternative(TcpOption), Named(b"eol"),
    Alternative(TcpOption), Named(b"TS"), Named(b"val"), Number(Free), Named(b"ecr"), Number(Free),
    Alternative(TcpOption), Named(b"sack"), Of(SackBlock), Of(Blocks),
    Alternative(Blocks),
    Alternative(Blocks), Of(SackBlock), Of(Blocks),
    Alternative(SackBlock), Number(Free), Symbol(b':'), Number(Free),
    Alternative(Call), ReferenceToken(PieceKind::Word), Symbol(b'('), Of(Arguments), Symbol(b')'), Symbol(b'='), Of(ExpectedResult), Of(Note),
    Alternative(Arguments),
    Alternative(Arguments), Of(Argument), Of(MoreArguments),
    Alternative(MoreArguments),
    Alternative(MoreArguments), Symbol(b','), Of(Argument), Of(MoreArguments),
    Alternative(Argument), Argued,
    Alternative(Argument), Of(Pair),
    Alternative(Argument), Argued, Of(Argument),
    Alternative(Argument), Of(Pair), Of(Argument),
    Alternative(Pair), Opening(b'('), Of(Inside), Closing(b')'),
    Alternative(Pair), Opening(b'['), Of(Inside), Closing(b']'),
    Alternative(Pair), Opening(b'{'), Of(Inside), Closing(b'}'),
    Alternative(Inside),
    Alternative(Inside), Plain, Of(Inside),
    Alternative(Inside), Of(Pair), Of(Inside),
    Alternative(ExpectedResult), Number(Free),
    Alternative(ExpectedResult), Hexadecimal,
    Alternative(ExpectedResult), Symbol(b'-'), Number(Free),
    Alternative(ExpectedResult), Symbol(b'-'), Number(Free), ReferenceToken(PieceKind::Word),
    Alternative(Note),
    Alternative(Note), Opening(b'('), Of(Inside), Closing(b')'),
];
