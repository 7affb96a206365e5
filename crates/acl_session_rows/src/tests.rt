//! Books, and what is written for them.

ghost use Rattle.std.specs.Prelude.{◌<◌};

use acl_base::Status;
use acl_edge::{MemSink, MemSource};
use acl_session::run;
use std::alloc::{AllocError, Global};
use std::process::Abort;
use std::test::Fail;

const FIRST: &[u8] = b"(defstobj st (pc :type integer :initially 0))\n(update-pc 5 st)\n(pc st)\n";

/// How a book ends that comes in pieces of so many bytes, and the sink that has what was written.
fn ran(
    alloc: Global,
    book: &[u8],
    piece: usize,
    read_fails: &[u64],
    write_fails: &[u64],
) -> Result<(Status, MemSink), AllocError>
    requires { 0 < piece }
{
    let bytes = Vec::from_slice(alloc, book)?;
    let mut source = MemSource::new(bytes, piece, Vec::from_slice(alloc, read_fails)?);
    let mut sink = MemSink::new(alloc, 10_000, Vec::from_slice(alloc, write_fails)?)?;
    let status = run(alloc, &[], &mut source, &mut sink);
    Ok((status, sink))
}

/// The book gives these bytes and this status.
fn gives(
    rt: &impl Abort,
    alloc: Global,
    book: &[u8],
    status: Status,
    wanted: &[u8],
) -> Result<(), Fail> {
    let (ended, sink) = ran(alloc, book, 65_536, &[], &[])?;
    assert_eq!(rt; ended, status);
    assert_eq!(rt; sink.bytes(), wanted);
    Ok(())
}

#[test]
fn an_empty_input(rt: HostRuntime) -> Result<(), Fail> {
    gives(
        &rt,
        rt.alloc(),
        b"",
        Status::Done,
        b"; 0 commands, 0 calls, 0 errors\n",
    )
}

#[test]
fn three_commands(rt: HostRuntime) -> Result<(), Fail> {
    gives(
        &rt,
        rt.alloc(),
        FIRST,
        Status::Done,
        b"ST\n<st>\n5\n; 3 commands, 2 calls, 0 errors\n",
    )
}

#[test]
fn a_guard_violation(rt: HostRuntime) -> Result<(), Fail> {
    let mut book = Vec::from_slice(rt.alloc(), FIRST)?;
    book.extend_from_slice(b"(update-pc 'a st)\n(pc st)\n")?;
    gives(
        &rt,
        rt.alloc(),
        book.as_slice(),
        Status::Errors,
        b"ST\n<st>\n5\nGuard violation: (UPDATE-PC A <st>)\n5\n; 5 commands, 4 calls, 1 errors\n",
    )
}

#[test]
fn a_read_with_no_object(rt: HostRuntime) -> Result<(), Fail> {
    gives(
        &rt,
        rt.alloc(),
        b"(pc st)",
        Status::Errors,
        b"Refused: NotYet\n; 1 commands, 0 calls, 1 errors\n",
    )
}

#[test]
fn packages(rt: HostRuntime) -> Result<(), Fail> {
    gives(
        &rt,
        rt.alloc(),
        b"(in-package \"Q\")\n(in-package \"KEYWORD\")\n",
        Status::Errors,
        b"Refused: UnknownPackage \"Q\"\n\"KEYWORD\"\n; 2 commands, 0 calls, 1 errors\n",
    )
}

#[test]
fn a_hexadecimal_integer(rt: HostRuntime) -> Result<(), Fail> {
    gives(
        &rt,
        rt.alloc(),
        b"(defstobj st (pc :type integer :initially 0))\n(update-pc #xff st)\n(pc st)\n",
        Status::Done,
        b"ST\n<st>\n255\n; 3 commands, 2 calls, 0 errors\n",
    )
}

#[test]
fn both_ends_of_the_integers(rt: HostRuntime) -> Result<(), Fail> {
    gives(
        &rt,
        rt.alloc(),
        b"(defstobj st (pc :type integer :initially -170141183460469231731687303715884105728))(pc st)(update-pc 170141183460469231731687303715884105727 st)(pc st)",
        Status::Done,
        b"ST\n-170141183460469231731687303715884105728\n<st>\n170141183460469231731687303715884105727\n; 4 commands, 3 calls, 0 errors\n",
    )
}

#[test]
fn primitives(rt: HostRuntime) -> Result<(), Fail> {
    gives(
        &rt,
        rt.alloc(),
        b"(binary-+ 170141183460469231731687303715884105727 1)\n(cons 1 '(2))\n(car 5)\n",
        Status::Errors,
        b"Out of range: BINARY-+\n(1 2)\nGuard violation: (CAR 5)\n; 3 commands, 3 calls, 2 errors\n",
    )
}

#[test]
fn names_of_definitions(rt: HostRuntime) -> Result<(), Fail> {
    gives(
        &rt,
        rt.alloc(),
        b"(defstobj car (pc :type integer :initially 0))(defstobj st (nat :type integer :initially 0))(defstobj st (zero :type integer :initially 0))(defstobj st (x :type integer :initially 0) (x :type integer :initially 0))(defstobj st (|a b| :type integer :initially 3))(|a b| st)",
        Status::Errors,
        b"Refused: BadName CAR\nRefused: NameInUse NATP\nRefused: NameInUse ZEROP\nRefused: NameInUse XP\nST\n3\n; 6 commands, 1 calls, 4 errors\n",
    )
}

#[test]
fn a_form_and_half_of_one(rt: HostRuntime) -> Result<(), Fail> {
    gives(
        &rt,
        rt.alloc(),
        b"(consp nil) (car",
        Status::Text,
        b"NIL\nText fault: Unfinished at 12\n; 1 commands, 1 calls, 0 errors\n",
    )
}

#[test]
fn an_integer_that_is_too_wide(rt: HostRuntime) -> Result<(), Fail> {
    gives(
        &rt,
        rt.alloc(),
        b"170141183460469231731687303715884105728",
        Status::Text,
        b"Text fault: IntegerTooWide at 0\n; 0 commands, 0 calls, 0 errors\n",
    )
}

#[test]
fn an_input_that_is_too_long(rt: HostRuntime) -> Result<(), Fail> {
    let alloc = rt.alloc();
    let mut book = vec![in alloc; b' '; 1_048_576]?;
    gives(
        &rt,
        rt.alloc(),
        book.as_slice(),
        Status::Done,
        b"; 0 commands, 0 calls, 0 errors\n",
    )?;
    book.push(b' ')?;
    gives(
        &rt,
        alloc,
        book.as_slice(),
        Status::Text,
        b"Text fault: NotYet at 1048576\n; 0 commands, 0 calls, 0 errors\n",
    )
}

#[test]
fn a_sink_that_fails_at_its_third_call(rt: HostRuntime) -> Result<(), Fail> {
    let (status, sink) = ran(rt.alloc(), FIRST, 65_536, &[], &[3])?;
    assert_eq!(rt; status, Status::WriteFault);
    assert_eq!(rt; sink.bytes(), b"ST\n<st>\n".as_slice());
    Ok(())
}

#[test]
fn a_source_that_fails_at_its_first_call(rt: HostRuntime) -> Result<(), Fail> {
    let (status, sink) = ran(rt.alloc(), FIRST, 65_536, &[1], &[])?;
    assert_eq!(rt; status, Status::ReadFault);
    assert_eq!(rt; sink.bytes(), b"".as_slice());
    Ok(())
}

#[test]
fn a_word(rt: HostRuntime) -> Result<(), Fail> {
    let alloc = rt.alloc();
    let words = vec![in alloc; String::from_str(alloc, "--pure")?]?;
    let bytes = Vec::from_slice(alloc, FIRST)?;
    let mut source = MemSource::new(bytes, 65_536, Vec::new(alloc));
    let mut sink = MemSink::new(alloc, 10_000, Vec::new(alloc))?;
    let status = run(alloc, words.as_slice(), &mut source, &mut sink);
    assert_eq!(rt; status, Status::Words);
    assert_eq!(rt; sink.bytes(), b"".as_slice());
    Ok(())
}

#[test]
fn a_book_that_comes_byte_by_byte(rt: HostRuntime) -> Result<(), Fail> {
    let (status, sink) = ran(rt.alloc(), FIRST, 1, &[], &[])?;
    assert_eq!(rt; status, Status::Done);
    assert_eq!(rt;
        sink.bytes(),
        b"ST\n<st>\n5\n; 3 commands, 2 calls, 0 errors\n".as_slice()
    );
    Ok(())
}
