// What the text of a cover comes to: the line of its table, or of a refusal.

#![tactic(auto)]

ghost use Rattle.desk.specs.Desk.{Tells};

use blif::TABLE_ROOM;
use line::Said;

// The line of a cover's text, and the refusal that is told: reading refuses it, or it has a table, and
// the line is that table's.
#[tactic(auto, unfolding(crate::specs::Desk::SaysCover))]
pub fn of_text(text: &[u8], out: &mut [u8]) -> Said
    ensures { Tells text.now out.old out.new result }
{
    // no heap where tables are matched
    let mut table = [0u8; TABLE_ROOM];
    match blif::read(text, &mut table) {
        Ok(cover) => line::say(cover.n, &table[..cover.used], out),
        Err(k) => Said::refused(k, out),
    }
}
