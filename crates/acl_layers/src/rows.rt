//! The table of core forms and built-in macros, by the number of their head.

ghost use Rattle.std.specs.Prelude.{◌≡◌, ◌<◌, Some, option_map, slice_get, IfSome};
ghost use Rattle.model_expansion.specs.Layers as layers;
ghost use Rattle.model_expansion.specs.Layers.{core_row, macro_row, path_row, arithmetic_row, path_text};
ghost use Rattle.acl_layers.specs.Rows.{seen_row, seen_path, seen_unit};
ghost use Rattle.acl_layers.specs.Layers.{IsWhole};

use crate::words;
use acl_base::SymId;

/// CAR or CDR.
#[derive(Clone, Copy, Debug)]
pub enum Letter {
    A,
    D,
}

/// CARs and CDRs, the outermost first.
#[derive(Clone, Copy, Debug)]
pub enum Path {
    One(Letter),
    Two(Letter, Letter),
    Three(Letter, Letter, Letter),
    Four(Letter, Letter, Letter, Letter),
    Five(Letter, Letter, Letter, Letter, Letter),
}

/// What a chain of no arguments is.
#[derive(Clone, Copy, Debug)]
pub enum Unit {
    Integer(i64),
    Nil,
}

/// A function of two, over its arguments as they stand or turned.
#[derive(Clone, Copy, Debug)]
pub enum Binary {
    Straight(SymId),
    Turned(SymId),
}

/// A row of the table: a core form, a macro, or what is left of one.
#[derive(Clone, Copy, Debug)]
pub enum Row {
    Quote,
    If,
    Let,
    Mv,
    MvLet,
    StobjLet,
    WithLocal,
    MustBeEqual,
    And,
    Or,
    Cond,
    Case,
    LetStar,
    Listing,
    ListStar,
    /// A function of two over all arguments, and what it is of none.
    Chain(SymId, Unit),
    Minus,
    /// The sum of this integer and the argument.
    Added(i64),
    Two(Binary),
    Negated(Binary),
    Path(Path),
    Then,
    Mbt,
    Mbe,
    The,
    /// What is left of an OR whose first value is bound.
    OrTest,
    /// What is left of a COND behind a clause without a result, whose test is bound.
    CondTest,
    /// Clauses of a COND that were looked at.
    CondRest,
    /// Clauses of a CASE.
    Clauses,
    /// Bindings of a LET*, and the body.
    Bindings,
    /// The type of a THE whose value is bound.
    Checked,
}

/// The row of a core form.
pub fn core_row(head: SymId) -> Option<Row>
    ensures is { option_map seen_row result ≡ core_row head.0 }
    ensures whole { IfSome result IsWhole }
{
    match head.0 {
        words::QUOTE => Some(Row::Quote),
        words::IF => Some(Row::If),
        words::LET => Some(Row::Let),
        words::MV => Some(Row::Mv),
        words::MV_LET => Some(Row::MvLet),
        words::STOBJ_LET => Some(Row::StobjLet),
        words::WITH_LOCAL_STOBJ => Some(Row::WithLocal),
        words::MUST_BE_EQUAL => Some(Row::MustBeEqual),
        _ => None,
    }
}

/// The path of a function from CAAR to CDDDDR, by how far it stands behind CAAR.
fn long_path(place: u32) -> Path
    requires { place < 28 }
    ensures { slice_get path_text place ≡ Some (seen_path result) }
{
    match place {
        0 => Path::Two(Letter::A, Letter::A),
        1 => Path::Two(Letter::A, Letter::D),
        2 => Path::Two(Letter::D, Letter::A),
        3 => Path::Two(Letter::D, Letter::D),
        4 => Path::Three(Letter::A, Letter::A, Letter::A),
        5 => Path::Three(Letter::A, Letter::A, Letter::D),
        6 => Path::Three(Letter::A, Letter::D, Letter::A),
        7 => Path::Three(Letter::A, Letter::D, Letter::D),
        8 => Path::Three(Letter::D, Letter::A, Letter::A),
        9 => Path::Three(Letter::D, Letter::A, Letter::D),
        10 => Path::Three(Letter::D, Letter::D, Letter::A),
        11 => Path::Three(Letter::D, Letter::D, Letter::D),
        12 => Path::Four(Letter::A, Letter::A, Letter::A, Letter::A),
        13 => Path::Four(Letter::A, Letter::A, Letter::A, Letter::D),
        14 => Path::Four(Letter::A, Letter::A, Letter::D, Letter::A),
        15 => Path::Four(Letter::A, Letter::A, Letter::D, Letter::D),
        16 => Path::Four(Letter::A, Letter::D, Letter::A, Letter::A),
        17 => Path::Four(Letter::A, Letter::D, Letter::A, Letter::D),
        18 => Path::Four(Letter::A, Letter::D, Letter::D, Letter::A),
        19 => Path::Four(Letter::A, Letter::D, Letter::D, Letter::D),
        20 => Path::Four(Letter::D, Letter::A, Letter::A, Letter::A),
        21 => Path::Four(Letter::D, Letter::A, Letter::A, Letter::D),
        22 => Path::Four(Letter::D, Letter::A, Letter::D, Letter::A),
        23 => Path::Four(Letter::D, Letter::A, Letter::D, Letter::D),
        24 => Path::Four(Letter::D, Letter::D, Letter::A, Letter::A),
        25 => Path::Four(Letter::D, Letter::D, Letter::A, Letter::D),
        26 => Path::Four(Letter::D, Letter::D, Letter::D, Letter::A),
        _ => Path::Four(Letter::D, Letter::D, Letter::D, Letter::D),
    }
}

fn path_row(head: SymId) -> Option<Row>
    ensures is { option_map seen_row result ≡ path_row head.0 }
    ensures whole { IfSome result IsWhole }
{
    if words::CAAR <= head.0 && head.0 <= words::CDDDDR {
        return Some(Row::Path(long_path(head.0 - words::CAAR)));
    }
    match head.0 {
        words::FIRST => Some(Row::Path(Path::One(Letter::A))),
        words::SECOND => Some(Row::Path(Path::Two(Letter::A, Letter::D))),
        words::THIRD => Some(Row::Path(Path::Three(Letter::A, Letter::D, Letter::D))),
        words::FOURTH => Some(Row::Path(Path::Four(Letter::A, Letter::D, Letter::D, Letter::D))),
        words::FIFTH => Some(Row::Path(Path::Five(
            Letter::A,
            Letter::D,
            Letter::D,
            Letter::D,
            Letter::D,
        ))),
        words::REST => Some(Row::Path(Path::One(Letter::D))),
        _ => None,
    }
}

fn chain(function: u32, unit: Unit) -> Option<Row>
    ensures is { option_map seen_row result ≡ Some (layers.Chain function (seen_unit unit)) }
    ensures whole { IfSome result IsWhole }
{
    Some(Row::Chain(SymId(function), unit))
}

fn arithmetic_row(head: SymId) -> Option<Row>
    ensures is { option_map seen_row result ≡ arithmetic_row head.0 }
    ensures whole { IfSome result IsWhole }
{
    let below = SymId(words::BELOW);
    match head.0 {
        words::PLUS => chain(words::BINARY_PLUS, Unit::Integer(0)),
        words::TIMES => chain(words::BINARY_TIMES, Unit::Integer(1)),
        words::MINUS => Some(Row::Minus),
        words::ADD_ONE => Some(Row::Added(1)),
        words::SUBTRACT_ONE => Some(Row::Added(-1)),
        words::ABOVE => Some(Row::Two(Binary::Turned(below))),
        words::AT_MOST => Some(Row::Negated(Binary::Turned(below))),
        words::AT_LEAST => Some(Row::Negated(Binary::Straight(below))),
        words::LOGAND => chain(words::BINARY_LOGAND, Unit::Integer(-1)),
        words::LOGIOR => chain(words::BINARY_LOGIOR, Unit::Integer(0)),
        words::LOGXOR => chain(words::BINARY_LOGXOR, Unit::Integer(0)),
        _ => path_row(head),
    }
}

fn two(function: u32) -> Option<Row>
    ensures is { option_map seen_row result ≡ Some (layers.Two function) }
    ensures whole { IfSome result IsWhole }
{
    Some(Row::Two(Binary::Straight(SymId(function))))
}

/// The row of a macro. It is never what is left of one.
pub fn macro_row(head: SymId) -> Option<Row>
    ensures is { option_map seen_row result ≡ macro_row head.0 }
    ensures whole { IfSome result IsWhole }
{
    match head.0 {
        words::AND => Some(Row::And),
        words::OR => Some(Row::Or),
        words::COND => Some(Row::Cond),
        words::CASE => Some(Row::Case),
        words::LET_STAR => Some(Row::LetStar),
        words::LIST => Some(Row::Listing),
        words::LIST_STAR => Some(Row::ListStar),
        words::APPEND => chain(words::BINARY_APPEND, Unit::Nil),
        words::MEMBER => two(words::MEMBER_EQUAL),
        words::MEMBER_EQ => two(words::MEMBER_EQUAL),
        words::ASSOC => two(words::ASSOC_EQUAL),
        words::ASSOC_EQ => two(words::ASSOC_EQUAL),
        words::UNION_EQ => two(words::UNION_EQUAL),
        words::PROG2 => Some(Row::Then),
        words::MBT => Some(Row::Mbt),
        words::MBE => Some(Row::Mbe),
        words::THE => Some(Row::The),
        _ => arithmetic_row(head),
    }
}
