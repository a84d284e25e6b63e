// A scenario followed with a log: what each of its slots told is noted.
ghost use Rattle.std.specs.Prelude.{◌≡◌};
ghost use Rattle.buslog.specs.Ring.{ring};
ghost use Rattle.diary.specs.Follow.{followed};

use buslog::log::Log;
use walk::follow::Listening;

// From power-on to the scenario's end. A log of another buffer stays as it is.
pub fn follow(s: &[u8], mut l: Log, bytes: &mut [u8]) -> Log
    ensures { ring bytes.new result ≡ followed (ring bytes.old l) s.now }
{
    for bus in Listening::to(s) {
        let _ = l.note(bytes, bus);
    }
    l
}
