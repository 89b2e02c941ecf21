// The slots of the station list, as one read of it shows them. Document 02, W-206: crate stations, specs/Slots.
#![tactic(auto)]

ghost use Rattle.std.specs.Prelude.{◌≡◌, ℕ, ◌-◌, ◌<◌, ◌≤◌, length, slice_index, IfSome};
ghost use Rattle.stations.specs.Slots.{slot_size, data_size, byte_of, bytes_of, first_from, empty, live, station, live_of, free_slot};
ghost use Rattle.stations.specs.Calls.{list_size};

// One read of the whole list: its bytes, and the mark of each.
#[derive(Clone, Copy)]
pub struct ListRead<'a> {
    pub reply: &'a [u8],
    pub marks: &'a [u8],
    pub ghost whole: { length reply.now ≡ list_size },
}

impl<'a> ListRead<'a> {
    ghost use Rattle.slots.specs.Reads.{shown_of, IsSlot};

    // The bytes of slot i.
    #[tactic(auto, unfolding(stations::specs::Slots::byte_of))]
    fn slot(&self, i: usize) -> &'a [u8]
        requires { i < 2048 }
        ensures size { length result.now ≡ slot_size }
        ensures bytes { (j : ℕ) → j < slot_size → slice_index result.now j ≡ byte_of (shown_of self.now) i j }
    {
        &self.reply[i * 32..i * 32 + 32]
    }

    // Slot i is empty: all FF.
    pub fn is_empty(&self, i: usize) -> bool
        requires { i < 2048 }
        ensures { result ≡ empty (shown_of self.now) i }
    {
        self.slot(i).iter().all(|b| *b == 0xFF)
    }

    // Slot i is live: its mark is 53 54.
    #[tactic(auto, unfolding(stations::specs::Slots::live))]
    pub fn is_live(&self, i: usize) -> bool
        requires { i < 2048 }
        ensures { result ≡ live (shown_of self.now) i }
    {
        let slot = self.slot(i);
        slot[0] == 0x53 && slot[1] == 0x54
    }

    // The station number of slot i.
    #[tactic(auto, unfolding(stations::specs::Slots::station))]
    pub fn station_of(&self, i: usize) -> u16
        requires { i < 2048 }
        ensures { result ≡ station (shown_of self.now) i }
    {
        let slot = self.slot(i);
        u16::from_be_bytes([slot[2], slot[3]])
    }

    // Slot i is a live one of that number.
    #[tactic(auto, unfolding(stations::specs::Slots::live_of))]
    pub fn is_live_of(&self, number: u16, i: usize) -> bool
        requires { i < 2048 }
        ensures { result ≡ live_of (shown_of self.now) number i }
    {
        self.is_live(i) && self.station_of(i) == number
    }

    // Its data.
    pub fn data(&self, i: usize) -> &'a [u8]
        requires { i < 2048 }
        ensures { result.now ≡ bytes_of (shown_of self.now) i 4 data_size }
    {
        &self.slot(i)[4..]
    }

    // The first empty slot.
    pub fn first_empty(&self) -> Option<usize>
        ensures { IsSlot (free_slot (shown_of self.now)) result }
    {
        (0..2048).find(|&i| self.is_empty(i))
    }

    // The first live slot of a number from slot `from` on.
    pub fn live_from(&self, number: u16, from: usize) -> Option<usize>
        requires { from ≤ 2048 }
        ensures slot { IsSlot (first_from (live_of (shown_of self.now) number) from (2048 - from)) result }
        ensures within { IfSome result (λ i. from ≤ i) }
    {
        (from..2048).find(|&i| self.is_live_of(number, i))
    }
}
