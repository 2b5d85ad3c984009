// A body of items of k bytes.
ghost use Rattle.std.specs.Prelude.{◌≡◌, ◌/◌, ◌%◌};
ghost use Rattle.layout.specs.Refusal.{lent, told};
ghost use Rattle.layout.specs.Items.{items, count, place, item};

use super::Refusal;
use super::body::any;
use wire::parts::part;

// The quotient and the remainder; by 0 they are 0 and the number itself.
fn quotient(n: usize, k: usize) -> usize
    ensures { result ≡ n / k }
{
    n.checked_div(k).unwrap_or(0)
}

fn remainder(n: usize, k: usize) -> usize
    ensures { result ≡ n % k }
{
    n.checked_rem(k).unwrap_or(n)
}

#[tactic(auto, unfolding(crate::specs::Items::items))]
fn whole(s: &[u8], tag: u8, k: usize) -> Result<&[u8], Refusal>
    ensures { told (lent result) ≡ items s.now tag k }
{
    let body = any(s, tag)?;
    if remainder(body.len(), k) == 0 {
        Ok(body)
    } else {
        Err(Refusal::DoesNotFit)
    }
}

// How many items there are.
#[tactic(auto, unfolding(crate::specs::Items::count))]
pub fn number_of(s: &[u8], tag: u8, k: usize) -> Result<usize, Refusal>
    ensures { told result ≡ count s.now tag k }
{
    let body = whole(s, tag, k)?;
    Ok(quotient(body.len(), k))
}

// Where the item of an index starts, which counts from 0, as the place counts from the tag.
#[tactic(auto, unfolding(crate::specs::Items::count, crate::specs::Items::place))]
pub fn item_at(s: &[u8], tag: u8, k: usize, index: usize) -> Result<usize, Refusal>
    ensures { told result ≡ place s.now tag k index }
{
    if index < number_of(s, tag, k)? {
        Ok(2 + k * index)
    } else {
        Err(Refusal::PastEnd)
    }
}

// The bytes of that item.
#[tactic(auto, unfolding(crate::specs::Items::item))]
pub fn item(s: &[u8], tag: u8, k: usize, index: usize) -> Result<&[u8], Refusal>
    ensures { told (lent result) ≡ item s.now tag k index }
{
    let at = item_at(s, tag, k, index)?;
    Ok(part(s, at, k))
}
