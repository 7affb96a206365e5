//! Writes the symbols that every table begins with, in the order of their numbers: the package of each, and its name.
#![tactic(auto)]

use acl_base::SymId;
use acl_syms::Symbols;
use std::io;
use std::io::Write;

fn main(rt: HostRuntime) -> io::Result<()> {
    let symbols = Symbols::new(rt.alloc())?;
    let mut out = io::writer(&rt);
    for number in 0..symbols.count() {
        let s = SymId(number);
        out.write_all(symbols.package_name(symbols.package(s)))?;
        out.write_all(b" ")?;
        out.write_all(symbols.name(s))?;
        out.write_all(b"\n")?;
    }
    Ok(())
}
