// What stands alone where something is refused: the log's length, or the scenario's form.
ghost use Rattle.std.specs.Prelude.{◌≡◌};
ghost use Rattle.scenario.specs.Pen.{penned};
ghost use Rattle.diary.specs.Output.{opening_text};

use buslog::log::{BadLength, Log};
use scenario::lines;
use scenario::pen::Pen;
use walk::form::FormError;

// The length is looked at first.
pub fn opening(out: &mut Pen, s: Result<Log, BadLength>, f: Result<(), FormError>)
    ensures { out.new ≡ penned out.old (opening_text s f) }
{
    match s {
        Ok(_) => lines::form_line(out, f),
        Err(_) => out.word(b"refused 16\n"),
    }
}
