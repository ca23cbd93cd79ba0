// A function filed as a record of a sheet: its block is found and appended.

#![tactic(auto)]

ghost use Rattle.filing.specs.Table.{FilesTable};
ghost use Rattle.filing.specs.Cover.{FilesCover};

use blif::TABLE_ROOM;
use record::{Numbers, Refused};

// A truth table of n inputs, filed under the numbers at the end of the sheet's used part, which `append` takes so.
pub fn of_table(
    s: &mut [u8],
    used: usize,
    craft: u32,
    block: u32,
    n: u8,
    t: &[u8],
) -> Result<usize, Refused>
    ensures { FilesTable s.old used craft block n t.now s.new result }
{
    let mut ten = [0u8; 10];
    matcher::first_match(n, t, &mut ten)?;
    append::append(s, used, Numbers { craft, block, n }, &ten)
}

// A cover's text, filed likewise.
pub fn of_cover(
    s: &mut [u8],
    used: usize,
    craft: u32,
    block: u32,
    text: &[u8],
) -> Result<usize, Refused>
    ensures { FilesCover s.old used craft block text.now s.new result }
{
    let mut table = [0u8; TABLE_ROOM];
    let cover = blif::read(text, &mut table)?;
    of_table(s, used, craft, block, cover.n, &table[0..cover.used])
}
