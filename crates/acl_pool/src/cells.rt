//! The memory of cells: each is four words, the last of which has the kinds and the role.
ghost use Rattle.std.specs.Prelude.{◌≡◌, ◌-◌, ◌<◌, ◌≤◌, ◌++◌, [], length, take, replicate, slice_set, IfOk, IsOk, OnOk, OnErr};
ghost use Rattle.acl_pool.specs.Packing.{kind_number, kind_from, role_number, role_from, packed, unpacked};
ghost use Rattle.acl_pool.specs.Cells.{cell_at, blank};

use crate::cell::{Cell, Kind, Role};
use acl_rawmem::RawArray;
use std::alloc::{AllocError, Global};
use std::marker::Model;

/// Cells in one block of memory.
#[derive(Drop)]
pub struct Cells {
    words: RawArray<[u64; 4]>,
}

impl Model for Cells {
    ghost use Rattle.std.specs.Prelude.{List, map};
    ghost use Rattle.acl_pool.specs.declared.cell.Cell.{Cell};
    ghost use Rattle.acl_pool.specs.Packing.{unpacked, cells_code};

    ghost Value = { List Cell };

    ghost coded = { cells_code };

    ghost view = { λ c. map unpacked c.words };
}

fn number_of_kind(kind: Kind) -> u64
    ensures { result ≡ kind_number kind }
{
    match kind {
        Kind::Small => 0,
        Kind::Sym => 1,
        Kind::Bits => 2,
        Kind::Big => 3,
        Kind::Str => 4,
        Kind::Cons => 5,
        Kind::Heap => 6,
    }
}

fn kind_of_number(n: u64) -> Kind
    ensures { result ≡ kind_from n }
{
    match n {
        0 => Kind::Small,
        1 => Kind::Sym,
        2 => Kind::Bits,
        3 => Kind::Big,
        4 => Kind::Str,
        5 => Kind::Cons,
        _ => Kind::Heap,
    }
}

fn number_of_role(role: Role) -> u64
    ensures { result ≡ role_number role }
{
    match role {
        Role::Inside => 0,
        Role::Wide => 1,
        Role::Text => 2,
        Role::Pair => 3,
    }
}

fn role_of_number(n: u64) -> Role
    ensures { result ≡ role_from n }
{
    match n {
        0 => Role::Inside,
        1 => Role::Wide,
        2 => Role::Text,
        _ => Role::Pair,
    }
}

fn pack(cell: Cell) -> [u64; 4]
    ensures { result ≡ packed cell }
{
    let kinds = number_of_kind(cell.left_kind) + 8 * number_of_kind(cell.right_kind);
    let last = kinds + 64 * number_of_role(cell.role);
    [cell.left, cell.right, cell.link, last]
}

fn unpack(words: [u64; 4]) -> Cell
    ensures { result ≡ unpacked words }
{
    Cell {
        left: words[0],
        right: words[1],
        link: words[2],
        left_kind: kind_of_number(words[3] % 8),
        right_kind: kind_of_number(words[3] / 8 % 8),
        role: role_of_number(words[3] / 64),
    }
}

impl Cells {
    pub fn new(alloc: Global) -> Cells
        ensures { result ≡ [] }
    {
        match RawArray::filled(alloc, 0, [0; 4]) {
            Ok(words) => Cells { words },
            Err(_) => unreachable!(),
        }
    }

    pub fn len(&self) -> usize
        ensures { result ≡ length self.now }
    {
        self.words.len()
    }

    pub fn get(&self, at: u64) -> Cell
        requires { at < length self.now }
        ensures { result ≡ cell_at self.now at }
    {
        unpack(self.words.get(at as usize))
    }

    pub fn set(&mut self, at: u64, cell: Cell)
        requires { at < length self.old }
        ensures { self.new ≡ slice_set self.old at cell }
    {
        self.words.set(at as usize, pack(cell));
    }

    /// Makes them `n`, with blank ones behind.
    pub fn lengthen(&mut self, n: usize) -> Result<(), AllocError>
        requires { length self.old ≤ n }
        ensures cells { OnOk result (self.new ≡ self.old ++ replicate (n - length self.old) blank) }
        ensures refused { OnErr result (self.new ≡ self.old) }
    {
        self.words.resize(n, [0; 4])?;
        Ok(())
    }
}
