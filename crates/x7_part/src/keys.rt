//! The keys that a part file's tables may have, each with what stands under it.

use crate::fault::PartKey;

/// The kind of a value, or of the items of a list.
#[derive(Clone, Copy, Drop)]
pub(crate) enum Kind {
    Text,
    Whole,
    Table,
}

/// A key, what its value is, and whether the key may be left out.
#[derive(Clone, Copy, Drop)]
pub(crate) struct KeyRule {
    pub(crate) key: PartKey,
    pub(crate) holds: Kind,
    pub(crate) is_list: bool,
    pub(crate) is_optional: bool,
}

/// The keys of the top table, in the order in which their values are checked.
#[rattlefmt::skip]
pub(crate) const TOP_KEYS: [KeyRule; 10] = [
    KeyRule { key: PartKey::Name, holds: Kind::Text, is_list: false, is_optional: false },
    KeyRule { key: PartKey::Idcode, holds: Kind::Whole, is_list: false, is_optional: false },
    KeyRule { key: PartKey::Mode, holds: Kind::Whole, is_list: false, is_optional: true },
    KeyRule { key: PartKey::BusWidth, holds: Kind::Whole, is_list: false, is_optional: true },
    KeyRule { key: PartKey::Lock, holds: Kind::Whole, is_list: false, is_optional: true },
    KeyRule { key: PartKey::Match, holds: Kind::Whole, is_list: false, is_optional: true },
    KeyRule { key: PartKey::FrameWords, holds: Kind::Whole, is_list: false, is_optional: true },
    KeyRule { key: PartKey::Far, holds: Kind::Whole, is_list: true, is_optional: true },
    KeyRule { key: PartKey::StartUnit, holds: Kind::Whole, is_list: false, is_optional: true },
    KeyRule { key: PartKey::Row, holds: Kind::Table, is_list: true, is_optional: false },
];

/// The keys of a row, in the order in which their values are checked.
#[rattlefmt::skip]
pub(crate) const ROW_KEYS: [KeyRule; 4] = [
    KeyRule { key: PartKey::Block, holds: Kind::Whole, is_list: false, is_optional: false },
    KeyRule { key: PartKey::Half, holds: Kind::Whole, is_list: false, is_optional: false },
    KeyRule { key: PartKey::Row, holds: Kind::Whole, is_list: false, is_optional: false },
    KeyRule { key: PartKey::Minors, holds: Kind::Whole, is_list: true, is_optional: false },
];
