// The search for a tag.
ghost use Rattle.std.specs.Prelude.{◌≡◌};
ghost use Rattle.search.specs.Search.{sought};
ghost use Rattle.cabinet.specs.Search.{search_says};

#[repr(C)]
#[derive(Clone, Copy, Default)]
pub struct SearchAnswer {
    pub number: u32,
    pub place: usize,
    // 1 for a hit.
    pub found: u32,
    // 0 for the top loop, or the entry's number from 1.
    pub entry: usize,
    // The body's place and size.
    pub start: usize,
    pub size: usize,
}

#[unsafe(no_mangle)]
pub extern "C" fn lohitunga_search(section: &[u8], tag: u8) -> SearchAnswer
    ensures { result ≡ search_says (sought section.now tag) }
{
    let none = SearchAnswer::default();
    match search::search(section, tag) {
        Ok(Some(hit)) => SearchAnswer {
            found: 1,
            entry: hit.number,
            start: hit.start,
            size: hit.size,
            ..none
        },
        Ok(None) => none,
        Err(refusal) => SearchAnswer {
            number: verdict::number(Err(refusal)) as u32,
            place: verdict::place(Err(refusal)),
            ..none
        },
    }
}
