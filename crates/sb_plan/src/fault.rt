//! What can be wrong with a plan file.

ghost use Rattle.std.specs.Prelude.{◌≡◌};
ghost use Rattle.sb_plan.specs.Keys.{key_text};

use sb_pipeline::TableFault;

/// A key of a plan file.
#[derive(Clone, Copy, Debug, PartialEq, Eq, Drop)]
pub enum PlanKey {
    Transform,
    Late,
    Keys,
    Name,
    Kind,
    From,
    With,
    Field,
    Test,
    Number,
    Change,
    Addends,
    Table,
    Size,
    Every,
    Keep,
    Gap,
    Give,
}

impl PlanKey {
    /// The key as it stands in the file.
    #[tactic(auto, unfolding(crate::specs::Keys::key_text))]
    pub fn text(self) -> &'static str
        ensures { result.now ≡ key_text self }
    {
        match self {
            PlanKey::Transform => "transform",
            PlanKey::Late => "late",
            PlanKey::Keys => "keys",
            PlanKey::Name => "name",
            PlanKey::Kind => "kind",
            PlanKey::From => "from",
            PlanKey::With => "with",
            PlanKey::Field => "field",
            PlanKey::Test => "test",
            PlanKey::Number => "number",
            PlanKey::Change => "change",
            PlanKey::Addends => "addends",
            PlanKey::Table => "table",
            PlanKey::Size => "size",
            PlanKey::Every => "every",
            PlanKey::Keep => "keep",
            PlanKey::Gap => "gap",
            PlanKey::Give => "give",
        }
    }
}

/// A test that a plan file fails.
#[derive(Clone, Copy, Debug, PartialEq, Eq, Drop)]
pub enum PlanCause {
    /// The file is longer than [`MAX_PLAN_BYTES`](crate::MAX_PLAN_BYTES).
    TooLong,
    /// The text is no TOML document.
    NotToml,
    /// A key that has no meaning there.
    UnknownField,
    /// The key is not there.
    Missing(PlanKey),
    /// The value at the key has another type.
    WrongType(PlanKey),
    /// The value at the key has the type, and is none of those that it may be.
    OutOfRange(PlanKey),
    /// There are more than [`MAX_TRANSFORMS`](sb_pipeline::MAX_TRANSFORMS) transforms.
    TooMany,
    /// An earlier transform has the name.
    NameTaken,
    /// There is no such kind of transform.
    UnknownKind,
    /// The table file is longer than [`MAX_TABLE_BYTES`](crate::MAX_TABLE_BYTES).
    TableTooLong,
    /// The table file has a faulty row.
    TableRow(TableFault),
    /// The input is neither a stream nor an earlier transform.
    UnknownFrom(PlanKey),
    /// The stream or the transform is an input already.
    UsedTwice(PlanKey),
    /// An earlier transform is a join.
    TwoJoins,
    /// No later transform uses what this one gives, and it is not the last.
    Unused,
    /// No transform is an aggregation, of windows or of sessions, or a join.
    NoWindow,
    /// The plan has a session window, which can't be saved.
    HasSession,
}

/// The first test that a plan file fails, and where.
#[derive(Clone, Copy, Debug, PartialEq, Eq, Drop)]
pub struct PlanFault {
    /// The place of the transform, counted from 1, or 0 for the document.
    pub at: u32,
    pub what: PlanCause,
}

/// Why there is no plan.
#[derive(Clone, Copy, Debug, PartialEq, Eq, Drop)]
pub enum PlanStop {
    /// The first test that fails.
    Fault(PlanFault),
    /// The folder could not load a table, and has listed the load.
    Folder,
    /// There was not enough memory.
    Memory,
}
