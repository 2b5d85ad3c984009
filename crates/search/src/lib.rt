// A search for a tag in a section.
#![tactic(auto)]

ghost use Rattle.std.specs.Prelude.{◌≡◌, ◌≤◌, drop};
ghost use Rattle.verdict.specs.Verdict.{accepted};
ghost use Rattle.tables.specs.Tables.{FixedTwo};
ghost use Rattle.loops.specs.Descriptors.{descriptors};
ghost use Rattle.section.specs.Entries.{entries};
ghost use Rattle.section.specs.Reading.{topped, inside};
ghost use Rattle.search.specs.Search.{none, told_hit, told_found, hit_in, hit_from, sought, body_of};

use loops::walk::step_at;
use section::judge::{before_crc, judge};
use tables::{Row, row_for, table_of};
use verdict::Refusal;

// A body by its loop's number, 0 for the top loop and else the entry's from 1, its place and its size.
#[derive(Clone, Copy)]
pub struct Hit {
    pub number: usize,
    pub start: usize,
    pub size: usize,
}

// What a search answers: a hit or none, or refusals 1 to 10.
pub type Found = Result<Option<Hit>, Refusal>;

// The top loop, which ends where `bytes` ends, from the place `at` on.
#[tactic(auto, using(crate::proofs::Hits::hit_step))]
fn find_in_top(bytes: &[u8], tag: u8, at: usize) -> Option<Hit>
    ensures { told_hit result ≡ hit_in tag 0 (descriptors at (drop at bytes.now)).items none }
{
    let mut p = at;
    while let Ok(Some(d)) = step_at(bytes, p) {
        if d.tag == tag {
            return Some(Hit {
                number: 0,
                start: d.start,
                size: d.size,
            });
        }
        p = d.start + d.size;
    }
    None
}

// The entries from the place `at` on.
#[tactic(auto, using(crate::proofs::Hits::hit_step))]
fn find_in_entries(bytes: &[u8], tag: u8, fixed: usize, at: usize) -> Option<Hit>
    requires { (2 ≤ fixed) × ((entries fixed at (drop at bytes.now)).ends ≡ accepted) }
    ensures { told_hit result ≡ hit_from tag 1 (entries fixed at (drop at bytes.now)).items }
{
    let mut found = None;
    let mut number: usize = 1;
    let mut p = at;
    'entries: while p < bytes.len() {
        let start = p + fixed;
        let next = start + wire::length12_at(bytes, p + (fixed - 2));
        let mut q = start;
        'descriptors: while let Ok(Some(d)) = step_at(&bytes[..next], q) {
            if d.tag == tag {
                found = Some(Hit {
                    number,
                    start: d.start,
                    size: d.size,
                });
                break 'entries;
            }
            q = d.start + d.size;
        }
        p = next;
        number += 1;
    }
    found
}

// A table with a top loop at the place `at`: the top loop first, then the entries behind it, if the table has any.
fn find_from_top(bytes: &[u8], tag: u8, fixed: usize, at: usize) -> Option<Hit>
    requires { FixedTwo fixed × ((topped fixed at (drop at bytes.now)).ends ≡ accepted) }
    ensures { told_hit result ≡ hit_from tag 0 (topped fixed at (drop at bytes.now)).items }
{
    let end = at + (2 + wire::length12_at(bytes, at));
    let top = find_in_top(&bytes[..end], tag, at + 2);
    if top.is_some() || fixed == 0 {
        return top;
    }
    find_in_entries(bytes, tag, fixed, end + 2)
}

#[tactic(auto, using(section::proofs::Readings::inside_laws))]
fn find_inside(row: Row, bytes: &[u8], tag: u8) -> Option<Hit>
    requires { FixedTwo row.fixed × ((inside row row.before (drop row.before bytes.now)).ends ≡ accepted) }
    ensures { told_hit result ≡ hit_from tag 0 (inside row row.before (drop row.before bytes.now)).items }
{
    match (row.top, row.fixed) {
        (1, fixed) => find_from_top(bytes, tag, fixed, row.before),
        (_, 0) => None,
        (_, fixed) => find_in_entries(bytes, tag, fixed, row.before),
    }
}

// The first descriptor with the tag.
#[tactic(auto, using(verdict::proofs::SaidLaws::refusal_lem), unfolding(crate::specs::Search::sought))]
pub fn search(section: &[u8], tag: u8) -> Found
    ensures { told_found result ≡ sought section.now tag }
{
    judge(section)?;
    let row = row_for(table_of(wire::numbers::byte_at(section, 0)));
    Ok(find_inside(row, before_crc(row, section), tag))
}

// The body that a hit names, as a part of the section; nothing where there is no hit.
pub fn body<'a>(section: &'a [u8], found: Found) -> &'a [u8]
    ensures { result.now ≡ body_of section.now (told_found found) }
{
    match found {
        Ok(Some(hit)) => wire::parts::part(section, hit.start, hit.size),
        _ => &section[..0],
    }
}
