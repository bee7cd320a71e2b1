// Replaying a record on both sides.
use super::Tally;
use crate::halt::{Halt, settled};
use crate::seen::{Asked, Call, Seen};
use crate::tables::Pair;
use reference::replay as again;
use search::replay::replay;

impl Tally {
    // Replays a record, and compares what both give and leave.
    pub fn replay(&mut self, bytes: &[u8], table: &mut Pair<'_>) -> Result<(), Halt> {
        let asked = Asked::new(Call::Replay(bytes.len()), table);
        let rest = replay(bytes, table.rows);
        let still = settled(again::replay(bytes, &mut table.second(self.heap)))?;
        let package = Seen::state(rest.as_ref().map_err(|refused| *refused));
        let reference = Seen::state(still.as_ref().map_err(|refused| *refused));
        self.see(asked, package, reference)?;
        self.tables(asked, table)
    }
}
