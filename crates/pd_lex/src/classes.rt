//! Classes of octets, by what one of them begins.
ghost use Rattle.std.specs.Prelude.{◌≡◌};
ghost use Rattle.pd_lex.specs.Classes.{class_of};

use OctetClass::{Digit, Letter, Other, Point, Symbol};

/// The kind of piece that an octet at the front of a line begins.
#[derive(Clone, Copy)]
pub enum OctetClass {
    /// A number, or a word that begins with digits.
    Digit,
    /// A word.
    Letter,
    /// Three points, a decimal or a symbol.
    Point,
    /// A symbol and nothing else.
    Symbol,
    /// Anything else, or nothing.
    Other,
}

/// The class of each octet, eight in a row.
static CLASSES: [OctetClass; 256] = [
    Other, Other, Other, Other, Other, Other, Other, Other, // 0x00
    Other, Other, Other, Other, Other, Other, Other, Other, // 0x08
    Other, Other, Other, Other, Other, Other, Other, Other, // 0x10
    Other, Other, Other, Other, Other, Other, Other, Other, // 0x18
    Other, Symbol, Other, Symbol, Symbol, Other, Symbol, Symbol, // 0x20: space ! " # $ % & '
    Symbol, Symbol, Symbol, Symbol, Symbol, Other, Point, Other, // 0x28: ( ) * + , - . /
    Digit, Digit, Digit, Digit, Digit, Digit, Digit, Digit, // 0x30: 0 1 2 3 4 5 6 7
    Digit, Digit, Symbol, Symbol, Symbol, Symbol, Symbol, Symbol, // 0x38: 8 9 : ; < = > ?
    Symbol, Letter, Letter, Letter, Letter, Letter, Letter, Letter, // 0x40: @ A B C D E F G
    Letter, Letter, Letter, Letter, Letter, Letter, Letter, Letter, // 0x48: H I J K L M N O
    Letter, Letter, Letter, Letter, Letter, Letter, Letter, Letter, // 0x50: P Q R S T U V W
    Letter, Letter, Letter, Symbol, Symbol, Symbol, Symbol, Letter, // 0x58: X Y Z [ \ ] ^ _
    Other, Letter, Letter, Letter, Letter, Letter, Letter, Letter, // 0x60: ` a b c d e f g
    Letter, Letter, Letter, Letter, Letter, Letter, Letter, Letter, // 0x68: h i j k l m n o
    Letter, Letter, Letter, Letter, Letter, Letter, Letter, Letter, // 0x70: p q r s t u v w
    Letter, Letter, Letter, Symbol, Symbol, Symbol, Symbol, Other, // 0x78: x y z { | } ~ delete
    Other, Other, Other, Other, Other, Other, Other, Other, // 0x80
    Other, Other, Other, Other, Other, Other, Other, Other, // 0x88
    Other, Other, Other, Other, Other, Other, Other, Other, // 0x90
    Other, Other, Other, Other, Other, Other, Other, Other, // 0x98
    Other, Other, Other, Other, Other, Other, Other, Other, // 0xa0
    Other, Other, Other, Other, Other, Other, Other, Other, // 0xa8
    Other, Other, Other, Other, Other, Other, Other, Other, // 0xb0
    Other, Other, Other, Other, Other, Other, Other, Other, // 0xb8
    Other, Other, Other, Other, Other, Other, Other, Other, // 0xc0
    Other, Other, Other, Other, Other, Other, Other, Other, // 0xc8
    Other, Other, Other, Other, Other, Other, Other, Other, // 0xd0
    Other, Other, Other, Other, Other, Other, Other, Other, // 0xd8
    Other, Other, Other, Other, Other, Other, Other, Other, // 0xe0
    Other, Other, Other, Other, Other, Other, Other, Other, // 0xe8
    Other, Other, Other, Other, Other, Other, Other, Other, // 0xf0
    Other, Other, Other, Other, Other, Other, Other, Other, // 0xf8
];

/// The class of an octet.
#[inline(always)]
pub fn class_of(octet: u8) -> OctetClass
    ensures { result ≡ class_of octet }
{
    CLASSES[usize::from(octet)]
}
