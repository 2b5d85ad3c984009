// The search for a tag.
ghost use Rattle.std.specs.Prelude.{◌≡◌};
ghost use Rattle.search.specs.Search.{sought};
ghost use Rattle.cabinet.specs.Search.{search_says};

use cabinet::tag_search::SearchAnswer;

#[unsafe(no_mangle)]
pub extern "C" fn lohitunga_search(section: &[u8], tag: u8) -> SearchAnswer
    ensures { result ≡ search_says (sought section.now tag) }
{
    cabinet::tag_search::lohitunga_search(section, tag)
}
