// The four lists: their tags, the numbers of a row, the bytes of an item.
ghost use Rattle.std.specs.Prelude.{◌≡◌, ◌<◌};
ghost use Rattle.write_lists.specs.Inner.Kinds.{tag_of, row_size, high_size, low_size, item_size};

#[derive(Clone, Copy)]
pub enum Kind {
    ServiceList,
    Content,
    ParentalRating,
    LocalTimeOffset,
}

#[derive(Clone, Copy)]
pub struct Sizes {
    pub tag: u8,
    // The numbers of a row.
    pub row: usize,
    // The bytes of an item.
    pub item: usize,
    // Of them the bytes of the high number, and of the low one.
    pub high: usize,
    pub low: usize,
}

// An item's bytes as two numbers, the one behind the other.
#[derive(Clone, Copy)]
pub struct Piece {
    pub high: u64,
    pub low: u64,
}

impl Kind {
    pub fn sizes(self) -> Sizes
        ensures tag { result.tag ≡ tag_of self }
        ensures row { (result.row ≡ row_size self) × (0 < result.row) }
        ensures item { (result.item ≡ item_size self) × (0 < result.item) }
        ensures high { result.high ≡ high_size self }
        ensures low { result.low ≡ low_size self }
    {
        match self {
            Kind::ServiceList => Sizes {
                tag: 0x41,
                row: 2,
                item: 3,
                high: 0,
                low: 3,
            },
            Kind::Content => Sizes {
                tag: 0x54,
                row: 3,
                item: 2,
                high: 0,
                low: 2,
            },
            Kind::ParentalRating => Sizes {
                tag: 0x55,
                row: 2,
                item: 4,
                high: 0,
                low: 4,
            },
            Kind::LocalTimeOffset => Sizes {
                tag: 0x58,
                row: 9,
                item: 13,
                high: 6,
                low: 7,
            },
        }
    }
}
