// What a store has counted since its making.
// Each count stops at 4,294,967,295.
ghost use Rattle.std.specs.Prelude.{◌≡◌, ◌≤◌, if◌then◌else◌, Some, None};
ghost use Rattle.calls.specs.Ledger.{raised, rate};

#[derive(Clone, Copy, Default, PartialEq, Debug)]
pub struct Ledger {
    pub changes: u32,
    pub renewals: u32,
    // cells that puts and renewals have marked
    pub marked: u32,
}

impl Ledger {
    // An accepted put.
    pub fn note_put(&mut self, changed: bool, marked: u32)
        ensures changes { self.new.changes ≡ raised (if changed then 1 else 0) self.old.changes }
        ensures renewals { self.new.renewals ≡ self.old.renewals }
        ensures marked { self.new.marked ≡ raised marked self.old.marked }
    {
        self.changes = self.changes.saturating_add(u32::from(changed));
        self.marked = self.marked.saturating_add(marked);
    }

    // An accepted renewal.
    pub fn note_renewal(&mut self, marked: u32)
        ensures changes { self.new.changes ≡ self.old.changes }
        ensures renewals { self.new.renewals ≡ raised 1 self.old.renewals }
        ensures marked { self.new.marked ≡ raised marked self.old.marked }
    {
        self.renewals = self.renewals.saturating_add(1);
        self.marked = self.marked.saturating_add(marked);
    }

    // Changes to a hundred renewals, rounded to the nearest; none where there was no renewal.
    pub fn rate(&self) -> Option<u64>
        ensures none { self.now.renewals ≡ 0 → result ≡ None }
        ensures some { 1 ≤ self.now.renewals → result ≡ Some (rate self.now.changes self.now.renewals) }
    {
        if self.renewals == 0 {
            return None;
        }
        let changes = u64::from(self.changes);
        let renewals = u64::from(self.renewals);
        Some((200 * changes + renewals) / (2 * renewals))
    }
}
