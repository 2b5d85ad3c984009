// How long the section of a sheet is, from the sheet's length and the number of its entries.
ghost use Rattle.std.specs.Prelude.{◌≡◌};
ghost use Rattle.tables.specs.Tables.{place};
ghost use Rattle.sheet.specs.Inner.Lengths.{gain, spare, length_by};

use tables::Table;

#[tactic(auto, unfolding(crate::specs::Inner::Lengths::gain))]
fn gained(table: Table) -> usize
    ensures { result ≡ gain (place table) }
{
    match table {
        Table::Nit | Table::Bat => 3,
        Table::Sdt => 2,
        Table::Eit => 1,
        Table::Tdt => 0,
        Table::Tot => 4,
    }
}

// SDT's and EIT's entries are counted at a place of their own, as these have no top loop.
#[tactic(auto, unfolding(crate::specs::Inner::Lengths::spare, crate::specs::Inner::Lengths::cut, crate::specs::Inner::Lengths::count_at,))]
fn spared(s: &[u8], table: Table) -> usize
    ensures { result ≡ spare (place table) s.now }
{
    match table {
        Table::Sdt => {
            let n = wire::numbers::number16_at(s, 9) as usize;
            3 * n + 1
        }
        Table::Eit => {
            let n = wire::numbers::number16_at(s, 13) as usize;
            2 * n + 1
        }
        _ => 1,
    }
}

#[tactic(auto, unfolding(crate::specs::Inner::Lengths::length_by))]
pub fn section_length(s: &[u8], table: Table) -> usize
    ensures { result ≡ length_by (place table) s.now }
{
    wire::less(forms::past(s.len(), gained(table)), spared(s, table))
}
