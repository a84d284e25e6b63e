// The telegrams that a master has waiting, oldest first. No other file names its fields.
ghost use Rattle.std.specs.Prelude.{◌≡◌};
ghost use Rattle.wire.specs.Form.{holding, telegram_form};
ghost use Rattle.station.specs.Outbox.{no_telegram, none_held, held_in, taking, accepted, oldest_of, dropped};

use crate::station::Station;
use wire::form::Wire;
use wire::part::{Load, Telegram};

// Array and count, no Vec: refusal 5 comes at 4 telegrams held and at nothing else.
#[derive(Clone, Copy)]
pub struct Outbox {
    pub slots: [Telegram; Station::QUEUE_DEPTH],
    pub held: usize,
}

// There is no room for one more.
#[derive(Clone, Copy)]
pub struct Full;

fn no_telegram() -> Telegram
    ensures { result ≡ no_telegram }
{
    Telegram {
        qq: 0,
        zz: 0,
        pb: 0,
        sb: 0,
        load: Load::empty(),
    }
}

impl Outbox {
    #[tactic(auto, unfolding(crate::specs::Outbox::none_held))]
    pub fn empty() -> Outbox
        ensures { result ≡ none_held }
    {
        Outbox {
            slots: [no_telegram(); Station::QUEUE_DEPTH],
            held: 0,
        }
    }

    #[tactic(auto, unfolding(crate::specs::Outbox::held_in))]
    pub fn held(self) -> usize
        ensures { result ≡ held_in self }
    {
        self.held
    }

    // The telegram goes behind the others; a full outbox stays as it is.
    #[tactic(auto, unfolding(crate::specs::Outbox::accepted))]
    pub fn accept(&mut self, t: Telegram) -> Result<(), Full>
        ensures { taking self.new result ≡ accepted self.old t }
    {
        if self.held >= Station::QUEUE_DEPTH {
            return Err(Full);
        }
        self.slots[self.held] = t;
        self.held += 1;
        Ok(())
    }

    // The telegram held longest.
    #[tactic(auto, unfolding(crate::specs::Outbox::oldest_of))]
    pub fn oldest(self) -> Telegram
        ensures { result ≡ oldest_of self }
    {
        self.slots[0]
    }

    pub fn oldest_form(self) -> Wire
        ensures { result ≡ holding (telegram_form (oldest_of self)) }
    {
        wire::form::telegram_form(self.oldest())
    }

    // The oldest leaves; each other moves up by one.
    #[tactic(auto, unfolding(crate::specs::Outbox::dropped))]
    pub fn drop_oldest(mut self) -> Outbox
        ensures { result ≡ dropped self }
    {
        if self.held == 0 {
            return self;
        }
        self.slots.copy_within(1.., 0);
        self.held -= 1;
        self
    }
}
