//! The primitives by the numbers of their symbols.

ghost use Rattle.acl_opening.specs.Opened.{AreOpening};

use acl_base::SymId;

/// The symbol of each primitive and how many arguments it takes, in the order of their table.
static PRIMITIVES: [(SymId, u8); 59] = [
    (SymId(6), 1),
    (SymId(7), 1),
    (SymId(8), 2),
    (SymId(9), 1),
    (SymId(10), 1),
    (SymId(12), 1),
    (SymId(13), 1),
    (SymId(17), 1),
    (SymId(18), 1),
    (SymId(19), 1),
    (SymId(136), 1),
    (SymId(137), 1),
    (SymId(140), 1),
    (SymId(141), 1),
    (SymId(142), 1),
    (SymId(11), 1),
    (SymId(14), 2),
    (SymId(15), 2),
    (SymId(16), 2),
    (SymId(128), 2),
    (SymId(129), 2),
    (SymId(130), 1),
    (SymId(20), 2),
    (SymId(21), 2),
    (SymId(22), 2),
    (SymId(31), 1),
    (SymId(134), 1),
    (SymId(135), 1),
    (SymId(138), 1),
    (SymId(139), 1),
    (SymId(32), 1),
    (SymId(33), 2),
    (SymId(34), 2),
    (SymId(35), 2),
    (SymId(36), 2),
    (SymId(38), 2),
    (SymId(37), 2),
    (SymId(39), 2),
    (SymId(40), 2),
    (SymId(44), 1),
    (SymId(131), 2),
    (SymId(132), 2),
    (SymId(133), 2),
    (SymId(143), 1),
    (SymId(45), 1),
    (SymId(46), 2),
    (SymId(145), 3),
    (SymId(144), 2),
    (SymId(47), 2),
    (SymId(146), 2),
    (SymId(148), 2),
    (SymId(150), 2),
    (SymId(48), 1),
    (SymId(152), 1),
    (SymId(153), 2),
    (SymId(154), 2),
    (SymId(155), 2),
    (SymId(156), 2),
    (SymId(127), 3),
];

pub(crate) fn primitives() -> &'static [(SymId, u8)]
    ensures { AreOpening result.now }
{
    &PRIMITIVES
}
