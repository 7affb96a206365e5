//! The primitives, by the kind of what they give.

/// A primitive.
#[derive(Clone, Copy, Debug, PartialEq, Eq)]
pub enum Prim {
    /// A test of one object.
    Recognizer(Recognizer),
    /// A test of two objects.
    Relation(Relation),
    /// An integer made of integers.
    Arithmetic(Arithmetic),
    /// A primitive on pairs and lists.
    Listing(Listing),
    /// A primitive on symbols and strings.
    Naming(Naming),
    TheCheck,
}

#[derive(Clone, Copy, Debug, PartialEq, Eq)]
pub enum Recognizer {
    Consp,
    Atom,
    Null,
    Not,
    Symbolp,
    Stringp,
    Integerp,
    Natp,
    Posp,
    Booleanp,
    TrueListp,
    Alistp,
    Endp,
    Zerop,
    Zp,
    Zip,
}

#[derive(Clone, Copy, Debug, PartialEq, Eq)]
pub enum Relation {
    Eq,
    Eql,
    Equal,
    /// `<`
    Below,
    /// `=`
    Same,
    /// `/=`
    Different,
    Implies,
    Iff,
}

#[derive(Clone, Copy, Debug, PartialEq, Eq)]
pub enum Arithmetic {
    Plus,
    Times,
    Minus,
    Nfix,
    Ifix,
    Abs,
    Min,
    Max,
    Floor,
    Mod,
    Truncate,
    Rem,
    Expt,
    Ash,
    Lognot,
    Logand,
    Logior,
    Logxor,
}

#[derive(Clone, Copy, Debug, PartialEq, Eq)]
pub enum Listing {
    Car,
    Cdr,
    Cons,
    Len,
    Length,
    Nth,
    UpdateNth,
    Append,
    Revappend,
    Member,
    Assoc,
    Union,
}

#[derive(Clone, Copy, Debug, PartialEq, Eq)]
pub enum Naming {
    SymbolName,
    SymbolPackageName,
    Intern,
    StringAppend,
}
