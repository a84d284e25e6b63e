// The line of a field: what was read, the shares of a block, the code that was written, or what refused it.
#![tactic(auto, using(scenario::proofs::Written::penned_both, scenario::proofs::Written::penned_none))]

ghost use Rattle.std.specs.Prelude.{◌≡◌};
ghost use Rattle.scenario.specs.Pen.{penned};
ghost use Rattle.sheet.specs.Lines.{refused_line, value_text, reading_line, shares_text, block_line, code_text, code_line, written_line, entry_line};

use crate::field::Entry;
use crate::{decimal, given};
use scenario::pen::Pen;
use value::block::{BlockError, Shares};
use value::value::{DataType, Value};
use value::write::Code;

// No value has the code, or no code the value: reading and writing answer an Option, so the number stands here, once.
const NO_CODE: u32 = 17;

fn refused(out: &mut Pen, number: u32)
    ensures { out.new ≡ penned out.old (refused_line number) }
{
    out.word(b"refused ");
    out.decimal(number);
    out.word(b"\n");
}

fn value_text(out: &mut Pen, v: Value)
    ensures { out.new ≡ penned out.old (value_text v) }
{
    match v {
        Value::Whole(n) => {
            out.word(b"whole ");
            out.decimal(n);
        }
        Value::Percent(x) => {
            out.word(b"percent ");
            decimal::float(out, x);
        }
        Value::Temperature(x) => {
            out.word(b"temperature ");
            decimal::float(out, x);
        }
        Value::Missing => out.word(b"missing"),
    }
}

fn reading_line(out: &mut Pen, r: Option<Value>)
    ensures { out.new ≡ penned out.old (reading_line r) }
{
    match r {
        Some(v) => {
            value_text(out, v);
            out.word(b"\n");
        }
        None => refused(out, NO_CODE),
    }
}

// Each share with a blank before it.
fn shares(out: &mut Pen, percents: &[f32])
    ensures { out.new ≡ penned out.old (shares_text percents.now) }
{
    for &x in percents {
        out.word(b" ");
        decimal::float(out, x);
    }
}

fn block_line(out: &mut Pen, b: Result<Shares, BlockError>)
    ensures { out.new ≡ penned out.old (block_line b) }
{
    match b {
        Ok(s) => {
            out.word(b"shares");
            shares(out, s.percents());
            out.word(b"\n");
        }
        Err(e) => refused(out, e.number()),
    }
}

fn code_text(out: &mut Pen, c: Code)
    ensures { out.new ≡ penned out.old (code_text c) }
{
    out.word(b"code");
    match c {
        Code::One(b) => out.hex(b),
        Code::Two(low, high) => {
            out.hex(low);
            out.hex(high);
        }
    }
}

fn code_line(out: &mut Pen, c: Option<Code>)
    ensures { out.new ≡ penned out.old (code_line c) }
{
    match c {
        Some(code) => {
            code_text(out, code);
            out.word(b"\n");
        }
        None => refused(out, NO_CODE),
    }
}

// A kind that is none is refused as a value without a code is.
fn written_line(out: &mut Pen, t: DataType, given: Option<Value>)
    ensures { out.new ≡ penned out.old (written_line t given) }
{
    code_line(out, given.and_then(|v| value::write::write(t, v)));
}

// A field that is none has no line: its sheet is refused.
pub fn entry_line(out: &mut Pen, e: Option<Entry>, bytes: &[u8])
    ensures { out.new ≡ penned out.old (entry_line e bytes.now) }
{
    match e {
        Some(Entry::Read(t)) => reading_line(out, value::read::read(t, bytes)),
        Some(Entry::Shares) => block_line(out, value::block::accept(bytes)),
        Some(Entry::Write(t)) => written_line(out, t, given::given_in(bytes)),
        None => {}
    }
}
