// What a slave answers, by PB and SB.
ghost use Rattle.std.specs.Prelude.{◌≡◌};
ghost use Rattle.station.specs.Replies.{no_reply, is_for, no_entries, count_in, entry_at, with_entry, entry_of, writing, added, written, answer_for};

use crate::outbox::Full;
use crate::station::Station;
use wire::part::Load;

#[derive(Clone, Copy)]
pub struct Reply {
    pub pb: u8,
    pub sb: u8,
    pub load: Load,
}

// Array and count, no map: refusal 12 comes at 8 entries held and at nothing else.
#[derive(Clone, Copy)]
pub struct ReplyBook {
    pub entries: [Reply; Station::REPLY_ENTRIES],
    pub held: usize,
}

// With no entry the answer has NN 0.
fn no_reply() -> Reply
    ensures { result ≡ no_reply }
{
    Reply {
        pb: 0,
        sb: 0,
        load: Load::empty(),
    }
}

impl Reply {
    #[tactic(auto, unfolding(crate::specs::Replies::is_for))]
    fn is_for(self, pb: u8, sb: u8) -> bool
        ensures { result ≡ is_for self pb sb }
    {
        self.pb == pb && self.sb == sb
    }
}

impl ReplyBook {
    #[tactic(auto, unfolding(crate::specs::Replies::no_entries))]
    pub fn empty() -> ReplyBook
        ensures { result ≡ no_entries }
    {
        ReplyBook {
            entries: [no_reply(); Station::REPLY_ENTRIES],
            held: 0,
        }
    }

    // The reply in a slave's answer to PB and SB.
    #[tactic(auto, unfolding(crate::specs::Replies::answer_for))]
    pub fn answer(self, pb: u8, sb: u8) -> Load
        ensures { result ≡ answer_for self pb sb }
    {
        match self.find(pb, sb) {
            Some(i) => self.entry(i).load,
            None => no_reply().load,
        }
    }

    // The same PB and SB replaces; a full book stays as it is.
    #[tactic(auto, unfolding(crate::specs::Replies::written))]
    pub fn write(&mut self, r: Reply) -> Result<(), Full>
        ensures { writing self.new result ≡ written self.old r }
    {
        match self.find(r.pb, r.sb) {
            Some(i) => {
                self.put(i, r);
                Ok(())
            }
            None => self.add(r),
        }
    }

    #[tactic(auto, unfolding(crate::specs::Replies::added, crate::specs::Replies::with_entry))]
    fn add(&mut self, r: Reply) -> Result<(), Full>
        ensures { writing self.new result ≡ added self.old r }
    {
        let n = self.held;
        if n >= Station::REPLY_ENTRIES {
            return Err(Full);
        }
        self.put(n, r);
        self.held = n + 1;
        Ok(())
    }

    // How many entries there are: never more than there is room for.
    #[tactic(auto, unfolding(crate::specs::Replies::count_in))]
    fn count(self) -> usize
        ensures { result ≡ count_in self }
    {
        laws::at_most(self.held, Station::REPLY_ENTRIES)
    }

    #[tactic(auto, unfolding(crate::specs::Replies::entry_at))]
    fn entry(self, i: usize) -> Reply
        ensures { result ≡ entry_at self i }
    {
        if i < Station::REPLY_ENTRIES {
            self.entries[i]
        } else {
            no_reply()
        }
    }

    #[tactic(auto, unfolding(crate::specs::Replies::with_entry))]
    fn put(&mut self, i: usize, r: Reply)
        ensures { self.new ≡ with_entry self.old i r }
    {
        if i < Station::REPLY_ENTRIES {
            self.entries[i] = r;
        }
    }

    #[tactic(auto, using(crate::proofs::Entries::count_fits))]
    fn find(self, pb: u8, sb: u8) -> Option<usize>
        ensures { result ≡ entry_of self pb sb }
    {
        let held = &self.entries[..self.count()];
        held.iter().position(|r| r.is_for(pb, sb))
    }
}
