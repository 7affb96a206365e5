//! What the functions of a field do, what they take and what they give.

ghost use Rattle.std.specs.Prelude.{◌≡◌, map};
ghost use Rattle.model_stobjs.specs.Entries.{field_tasks, recognizer_task, creator_task};
ghost use Rattle.acl_terms.specs.Definitions.{seen_shape};
ghost use Rattle.acl_generated.specs.Tasks.{seen_task, held_number};

use acl_base::SymId;
use acl_heap::Heap;
use acl_terms::Shape;
use model_terms::Role;

/// What is taken or given: what is ordinary, the stobj itself, or the stobj that the field holds.
#[derive(Clone, Copy, Debug)]
pub(crate) enum Slot {
    Ordinary,
    Itself,
    Held,
}

/// What a function does, what it takes and what it gives.
#[derive(Clone, Copy, Debug)]
pub(crate) struct Task {
    pub role: Role,
    pub ins: &'static [Slot],
    pub outs: &'static [Slot],
}

macro_rules! task {
    ($role:expr, $ins:expr, $outs:expr) => {
        Task {
            role: $role,
            ins: $ins,
            outs: $outs,
        }
    };
}

static RECOGNIZER: Task = task!(Role::Recognizer, &[Slot::Itself], &[Slot::Ordinary]);

static CREATOR: Task = task!(Role::Creator, &[], &[Slot::Itself]);

static SCALAR: [Task; 3] = [
    task!(Role::FieldRecognizer, &[Slot::Ordinary], &[Slot::Ordinary]),
    task!(Role::Access, &[Slot::Itself], &[Slot::Ordinary]),
    task!(
        Role::Update,
        &[Slot::Ordinary, Slot::Itself],
        &[Slot::Itself]
    ),
];

static ARRAY: [Task; 5] = [
    task!(Role::FieldRecognizer, &[Slot::Ordinary], &[Slot::Ordinary]),
    task!(Role::Length, &[Slot::Itself], &[Slot::Ordinary]),
    task!(
        Role::Resize,
        &[Slot::Ordinary, Slot::Itself],
        &[Slot::Itself]
    ),
    task!(
        Role::Access,
        &[Slot::Ordinary, Slot::Itself],
        &[Slot::Ordinary]
    ),
    task!(
        Role::Update,
        &[Slot::Ordinary, Slot::Ordinary, Slot::Itself],
        &[Slot::Itself]
    ),
];

static HASH: [Task; 8] = [
    task!(Role::FieldRecognizer, &[Slot::Ordinary], &[Slot::Ordinary]),
    task!(
        Role::HashGet,
        &[Slot::Ordinary, Slot::Itself],
        &[Slot::Ordinary]
    ),
    task!(
        Role::HashBoundp,
        &[Slot::Ordinary, Slot::Itself],
        &[Slot::Ordinary]
    ),
    task!(
        Role::HashGetBound,
        &[Slot::Ordinary, Slot::Itself],
        &[Slot::Ordinary, Slot::Ordinary]
    ),
    task!(
        Role::HashPut,
        &[Slot::Ordinary, Slot::Ordinary, Slot::Itself],
        &[Slot::Itself]
    ),
    task!(
        Role::HashRem,
        &[Slot::Ordinary, Slot::Itself],
        &[Slot::Itself]
    ),
    task!(Role::HashCount, &[Slot::Itself], &[Slot::Ordinary]),
    task!(Role::HashClear, &[Slot::Itself], &[Slot::Itself]),
];

static CHILD: [Task; 3] = [
    task!(Role::FieldRecognizer, &[Slot::Ordinary], &[Slot::Ordinary]),
    task!(Role::Access, &[Slot::Itself], &[Slot::Held]),
    task!(Role::Update, &[Slot::Held, Slot::Itself], &[Slot::Itself]),
];

static CHILDREN: [Task; 5] = [
    task!(Role::FieldRecognizer, &[Slot::Ordinary], &[Slot::Ordinary]),
    task!(Role::Length, &[Slot::Itself], &[Slot::Ordinary]),
    task!(
        Role::Resize,
        &[Slot::Ordinary, Slot::Itself],
        &[Slot::Itself]
    ),
    task!(Role::Access, &[Slot::Ordinary, Slot::Itself], &[Slot::Held]),
    task!(
        Role::Update,
        &[Slot::Ordinary, Slot::Held, Slot::Itself],
        &[Slot::Itself]
    ),
];

/// The stobj that a field holds; of a field that holds none, any.
pub(crate) fn held(shape: Shape) -> SymId
    ensures { result.0 ≡ held_number shape }
{
    match shape {
        Shape::Scalar { .. } => SymId(0),
        Shape::Array { .. } => SymId(0),
        Shape::Hash(_) => SymId(0),
        Shape::Child(stobj) => stobj,
        Shape::Children { stobj, .. } => stobj,
    }
}

/// The functions of a field, in the order of their names.
pub(crate) fn tasks_of(_heap: &Heap, _stobj: SymId, shape: Shape) -> &'static [Task]
    ensures { map (seen_task _stobj.0 (held_number shape)) result.now ≡ field_tasks _stobj.0 (seen_shape _heap.now shape) }
{
    match shape {
        Shape::Scalar { .. } => &SCALAR,
        Shape::Array { .. } => &ARRAY,
        Shape::Hash(_) => &HASH,
        Shape::Child(_) => &CHILD,
        Shape::Children { .. } => &CHILDREN,
    }
}

pub(crate) fn recognizer(_stobj: SymId) -> &'static Task
    ensures { seen_task _stobj.0 _stobj.0 result.now ≡ recognizer_task _stobj.0 }
{
    &RECOGNIZER
}

pub(crate) fn creator(_stobj: SymId) -> &'static Task
    ensures { seen_task _stobj.0 _stobj.0 result.now ≡ creator_task _stobj.0 }
{
    &CREATOR
}
