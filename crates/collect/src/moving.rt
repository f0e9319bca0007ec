// A deal that can be collected: its areas and entries written into the new deal, its owners into the new table.
ghost use Rattle.std.specs.Prelude.{◌≡◌, true, ◌<◌, length};
ghost use Rattle.octets.specs.Splice.{splice};
ghost use Rattle.collect.specs.Ready.{Ready};
ghost use Rattle.houses.specs.Houses.{table_sized};
ghost use Rattle.collect.specs.Collect.{slot_to, offset_to, area_to, entry_place_to, entry_to, owner_to};
ghost use Rattle.collect.specs.Collect.{collected_deal, collected_table};

use room::Range;

// A deal that can be collected, with the ranges of its slots, one a slot.
#[derive(Clone, Copy)]
pub(crate) struct Source<'a> {
    pub(crate) deal: &'a [u8],
    pub(crate) ranges: &'a [Range],
    pub ghost ready: { Ready deal.now ranges.now },
}

impl<'a> Source<'a> {
    // Writes the bytes of slot j's area at their new offset; nothing for a free slot.
    fn write_area(&self, new: &mut [u8], j: usize)
        requires { (j < length self.now.ranges.now) × (length new.old ≡ length self.now.deal.now) }
        ensures { new.new
            ≡ splice new.old (offset_to self.now.deal.now j) (area_to self.now.deal.now j) }
    {
        let range = self.ranges[j];
        let to = packing::move_of(self.ranges, j);
        let start = range.offset as usize;
        let end = start + range.area as usize;
        octets::put(new, to.offset as usize, &self.deal[start..end]);
    }

    // Writes slot j's entry, with its new offset, in its new slot; nothing for a free slot.
    fn write_entry(&self, new: &mut [u8], j: usize)
        requires { (j < length self.now.ranges.now) × (length new.old ≡ length self.now.deal.now) }
        ensures { new.new
            ≡ splice new.old (entry_place_to self.now.deal.now j) (entry_to self.now.deal.now j) }
    {
        let deal_size = self.deal.len() as u64;
        let place = sizes::slot_place(deal_size, j as u64);
        let Some(row) = index::standing_at(self.deal, place as usize) else {
            return;
        };
        let to = packing::move_of(self.ranges, j);
        let entry = entries::entry_of(row.commitment, to.offset, row.size);
        let at = sizes::slot_place(deal_size, to.slot);
        octets::put_array(new, at as usize, entry);
    }

    // Writes slot j's byte of the table for its new slot; nothing for a free slot.
    fn write_owner(&self, table: &[u8], new: &mut [u8], j: usize)
        requires slot { j < length self.now.ranges.now }
        requires table_value { (table_sized (length self.now.deal.now) table.now ≡ true)
            × (table_sized (length self.now.deal.now) new.old ≡ true) }
        ensures { new.new
            ≡ splice new.old (slot_to self.now.deal.now j)
            (owner_to self.now.deal.now table.now j) }
    {
        if self.ranges[j].area == 0 {
            return;
        }
        let to = packing::move_of(self.ranges, j);
        let at = to.slot as usize;
        new[at] = table[j];
    }

    // Writes the new deal over whatever the second buffer holds: all areas, then all entries.
    pub(crate) fn write_deal(&self, new: &mut [u8])
        requires { length new.old ≡ length self.now.deal.now }
        ensures { new.new ≡ collected_deal self.now.deal.now }
    {
        new.fill(0);
        for j in 0..self.ranges.len() {
            self.write_area(new, j);
        }
        for k in 0..self.ranges.len() {
            self.write_entry(new, k);
        }
    }

    // Writes the new table over whatever the second one holds.
    pub(crate) fn write_table(&self, table: &[u8], new: &mut [u8])
        requires table_value { (table_sized (length self.now.deal.now) table.now ≡ true)
            × (table_sized (length self.now.deal.now) new.old ≡ true) }
        ensures { new.new ≡ collected_table self.now.deal.now table.now }
    {
        new.fill(0);
        for j in 0..self.ranges.len() {
            self.write_owner(table, new, j);
        }
    }
}
