// The lines of a station in a slot, of a refusal, of a scenario's form, and the last line.
#![tactic(auto, using(crate::proofs::Written::penned_both, crate::proofs::Written::penned_none), unfolding(crate::specs::Lines::begin_text, crate::specs::Lines::plain_text, crate::specs::Lines::counted_text, crate::specs::Lines::given_text, crate::specs::Lines::answer_text, crate::specs::Lines::end_text))]

ghost use Rattle.std.specs.Prelude.{Err, ◌≡◌, true, false};
ghost use Rattle.scenario.specs.Pen.{penned};
ghost use Rattle.scenario.specs.Lines.{word_text, begin_text, plain_text, counted_text, load_text, given_text, answer_text, pass_text, verdict_text, form_text, end_text};
ghost use Rattle.station.specs.Events.{failed, number_of};

use crate::pen::Pen;
use bus::refusal::Refusal;
use bus::time::Time;
use station::phase::{Failure, Told};
use station::station::Turn;
use walk::form::FormError;
use wire::part::{Load, Telegram};

// Every line begins with the slot and the station's first address.
#[derive(Clone, Copy)]
struct Line {
    slot: u32,
    station: u8,
}

impl Line {
    fn begin(self, out: &mut Pen)
        ensures { out.new ≡ penned out.old (begin_text self.slot self.station) }
    {
        out.decimal(self.slot);
        out.hex(self.station);
    }

    // A line with a word and nothing more.
    fn plain(self, out: &mut Pen, word: &[u8])
        ensures { out.new ≡ penned out.old (plain_text self.slot self.station word.now) }
    {
        self.begin(out);
        out.word(word);
        out.word(b"\n");
    }

    // A line with a word and a decimal number.
    fn counted(self, out: &mut Pen, word: &[u8], n: u32)
        ensures { out.new ≡ penned out.old (counted_text self.slot self.station word.now n) }
    {
        self.begin(out);
        out.word(word);
        out.decimal(n);
        out.word(b"\n");
    }

    fn failed(self, out: &mut Pen, f: Failure)
        ensures { out.new ≡ penned out.old (counted_text self.slot self.station (word_text failed) (number_of f)) }
    {
        self.counted(out, b" failed ", u32::from(f.number()));
    }

    // given with QQ, PB, SB, NN and data.
    fn given(self, out: &mut Pen, t: Telegram)
        ensures { out.new ≡ penned out.old (given_text self.slot self.station t) }
    {
        self.begin(out);
        out.word(b" given");
        out.hex(t.qq);
        out.hex(t.pb);
        out.hex(t.sb);
        load(out, t.load);
        out.word(b"\n");
    }

    // answer with the slave's address, NN and data.
    fn answer(self, out: &mut Pen, t: Telegram)
        ensures { out.new ≡ penned out.old (answer_text self.slot self.station t) }
    {
        self.begin(out);
        out.word(b" answer");
        out.hex(t.zz);
        load(out, t.load);
        out.word(b"\n");
    }
}

// NN and the data.
fn load(out: &mut Pen, l: Load)
    ensures { out.new ≡ penned out.old (load_text l) }
{
    let nn = wire::form::count_of(l);
    out.hex(nn);
    for b in &l.bytes[..usize::from(nn)] {
        out.hex(*b);
    }
}

// owns, taken, failed and free lines of one station.
pub fn first_of(out: &mut Pen, time: Time, t: Turn)
    ensures { out.new ≡ penned out.old (pass_text time false t) }
{
    let line = Line {
        slot: time.slot,
        station: t.station.address,
    };
    match t.told {
        Told::Owns => line.plain(out, b" owns"),
        Told::Taken => line.plain(out, b" taken"),
        Told::Failed(f) => line.failed(out, f),
        Told::Free => line.counted(out, b" free ", time.elapsed),
        Told::FailedFree(f) => {
            line.failed(out, f);
            line.counted(out, b" free ", time.elapsed);
        }
        Told::Silence | Told::Given | Told::Answered => {}
    }
}

// given and answer lines of one station.
pub fn last_of(out: &mut Pen, time: Time, t: Turn)
    ensures { out.new ≡ penned out.old (pass_text time true t) }
{
    let line = Line {
        slot: time.slot,
        station: t.station.address,
    };
    match t.told {
        Told::Given => line.given(out, t.station.part),
        Told::Answered => line.answer(out, t.station.part),
        _ => {}
    }
}

// `refused N`, or nothing.
pub fn verdict_line(out: &mut Pen, v: Result<(), Refusal>)
    ensures { out.new ≡ penned out.old (verdict_text v) }
{
    if let Err(r) = v {
        out.word(b"refused ");
        out.decimal(r.number());
        out.word(b"\n");
    }
}

// `refused 14` with the offset, `refused 15 65536`, or nothing.
pub fn form_line(out: &mut Pen, f: Result<(), FormError>)
    ensures { out.new ≡ penned out.old (form_text f) }
{
    if let Err(bad) = f {
        bad_line(out, bad);
    }
}

fn bad_line(out: &mut Pen, bad: FormError)
    ensures { out.new ≡ penned out.old (form_text (Err bad)) }
{
    match bad {
        FormError::BadField(offset) => {
            out.word(b"refused 14 ");
            out.decimal(offset);
            out.word(b"\n");
        }
        FormError::TooLong => out.word(b"refused 15 65536\n"),
    }
}

// `end` and the slot number.
pub fn end_line(out: &mut Pen, slot: u32)
    ensures { out.new ≡ penned out.old (end_text slot) }
{
    out.word(b"end ");
    out.decimal(slot);
    out.word(b"\n");
}
